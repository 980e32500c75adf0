// The commands of a table (document 01, "Campaign table"): the byte of each, where it may stand, and the checks that need neither
// its operands nor what the commands before it name: 3, 6 and 16.
#![tactic(auto)]

ghost use Rattle.std.specs.Prelude.{◌≡◌};
ghost use Rattle.model.specs.Command.{code_of, command_of, width, in_place, after_term, head};
ghost use Rattle.model.specs.Reading.{head_wanted};
ghost use Rattle.command.specs.Names.{form_of, command_is, place_of, wanted_of};
ghost use Rattle.command.specs.Checks.{lies_in, misplaced, miscounted, unfinished, closes_idle};

// "54 P V A: head of a written table"; "4E P N A: head of a normal table"
#[derive(Clone, Copy, PartialEq, Eq)]
pub enum Form {
    Written,
    Normal,
}

// The heads that a call takes. A stored table may have either, and moves that do nothing.
#[derive(Clone, Copy, PartialEq, Eq)]
pub enum Wanted {
    Written,
    Normal,
    Both,
    Stored,
}

#[derive(Clone, Copy)]
pub enum Command {
    Head(Form),
    OpenMove,
    OpenGoal,
    EndTable,
    NeedProp,
    AddProp,
    DeleteProp,
    Term,
    CloseCondition,
    CloseEffect,
    Unknown,
}

// Where a command stands, in the order of reading.
#[derive(Clone, Copy, PartialEq, Eq, PartialOrd, Ord)]
pub enum Place {
    Start,
    Preamble,
    InMove,
    InGoal,
    Finished,
}

// The command that a byte stands for.
pub fn command_of(byte: u8) -> Command
    ensures { command_is result ≡ command_of byte }
{
    match byte {
        0x54 => Command::Head(Form::Written),
        0x4E => Command::Head(Form::Normal),
        0x41 => Command::OpenMove,
        0x47 => Command::OpenGoal,
        0x45 => Command::EndTable,
        0x50 => Command::NeedProp,
        0x2B => Command::AddProp,
        0x2D => Command::DeleteProp,
        0x57 => Command::Term,
        0x43 => Command::CloseCondition,
        0x46 => Command::CloseEffect,
        _ => Command::Unknown,
    }
}

// The bytes of a command with its operands.
pub fn width(command: Command) -> usize
    ensures { result ≡ width (command_is command) }
{
    match command {
        Command::OpenMove | Command::OpenGoal | Command::EndTable | Command::Unknown => 1,
        Command::NeedProp | Command::AddProp | Command::DeleteProp => 2,
        Command::Head(_) | Command::Term => 4,
        Command::CloseCondition => 6,
        Command::CloseEffect => 7,
    }
}

// Does the place lie between the two, both included?
fn lies(place: Place, first: Place, last: Place) -> bool
    ensures { result ≡ lies_in (place_of first) (place_of last) (place_of place) }
{
    first <= place && place <= last
}

// May the command stand there?
fn in_place(place: Place, command: Command) -> bool
    ensures { result ≡ in_place (place_of place) (command_is command) }
{
    match command {
        Command::Head(_) => place == Place::Start,
        Command::OpenMove => lies(place, Place::Preamble, Place::InGoal),
        Command::OpenGoal => lies(place, Place::Preamble, Place::InMove),
        Command::EndTable => place == Place::InGoal,
        Command::NeedProp | Command::Term | Command::CloseCondition => {
            lies(place, Place::InMove, Place::InGoal)
        }
        Command::AddProp | Command::DeleteProp | Command::CloseEffect => place == Place::InMove,
        Command::Unknown => false,
    }
}

// May the command follow a term?
fn after_term(command: Command) -> bool
    ensures { result ≡ after_term (command_is command) }
{
    match command {
        Command::Term | Command::CloseCondition | Command::CloseEffect => true,
        _ => false,
    }
}

// Does a call that wants these heads take the command?
fn head_wanted(wanted: Wanted, command: Command) -> bool
    ensures { result ≡ head_wanted (wanted_of wanted) (command_is command) }
{
    match command {
        Command::Head(form) => takes_head(wanted, form),
        _ => true,
    }
}

// Does a call that wants these heads take a head of this form?
fn takes_head(wanted: Wanted, form: Form) -> bool
    ensures { result ≡ head_wanted (wanted_of wanted) (head (form_of form)) }
{
    match wanted {
        Wanted::Both | Wanted::Stored => true,
        Wanted::Written => form == Form::Written,
        Wanted::Normal => form == Form::Normal,
    }
}

// Check 3: "unknown, misplaced, wrong head for the call, terms left open".
pub fn misplaced(place: Place, terms: usize, wanted: Wanted, command: Command) -> bool
    ensures { result ≡ misplaced (wanted_of wanted) (place_of place) terms (command_is command) }
{
    !in_place(place, command) || !head_wanted(wanted, command) || terms > 0 && !after_term(command)
}

// Check 6: "41 beyond A, after the goal too; 47 before A moves".
pub fn miscounted(command: Command, moves: usize, opened: usize) -> bool
    ensures { result ≡ miscounted moves opened (command_is command) }
{
    match command {
        Command::OpenMove => moves <= opened,
        Command::OpenGoal => opened < moves,
        _ => false,
    }
}

// Is a move that does nothing open, in a table that may have none? `active` says whether the open block changes something.
fn unfinished(place: Place, active: bool, wanted: Wanted) -> bool
    ensures { result ≡ unfinished (wanted_of wanted) (place_of place) active }
{
    wanted != Wanted::Stored && place == Place::InMove && !active
}

// Check 16: "such a move, place the command that closes its block".
pub fn closes_idle(place: Place, active: bool, wanted: Wanted, command: Command) -> bool
    ensures { result ≡ closes_idle (wanted_of wanted) (place_of place) active (command_is command) }
{
    match command {
        Command::OpenMove | Command::OpenGoal => unfinished(place, active, wanted),
        _ => false,
    }
}

// The byte of the head's kind.
pub fn kind_code(form: Form) -> u64
    ensures { result ≡ code_of (head (form_of form)) }
{
    match form {
        Form::Written => 0x54,
        Form::Normal => 0x4E,
    }
}
