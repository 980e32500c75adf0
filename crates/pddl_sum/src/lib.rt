// Numbers, names, declarations and sums of the PDDL text (document 02, request 1). Every function returns the offset behind what it
// writes, and writes only what fits (crate `output`).
#![tactic(auto)]

ghost use Rattle.std.specs.Prelude.{◌^◌, ◌<◌, nat_abs};
ghost use Rattle.model.specs.Pddl.{number_text, expression_text, sum_of};
ghost use Rattle.block.specs.Terms.{SumAt, term_of, terms_at};
ghost use Rattle.output.specs.Writing.{Written, Room};
ghost use Rattle.pddl_sum.specs.Names.{name_text, each, declared};
ghost use Rattle.pddl_sum.specs.Sums.{term_text, term_texts, closes, TermHere};

use block::Terms;

// A number: a literal, -5 too.
pub fn put_number(z: i64, out: &mut [u8], at: usize) -> usize
    requires { (nat_abs z < 2 ^ 63) × Room at (number_text z) }
    ensures { Written out.old at (number_text z) out.new result }
{
    let size = z.unsigned_abs();
    if z < 0 {
        let digits = output::put_byte(out, at, 0x2D);
        return output::put_decimal(out, digits, size);
    }
    output::put_decimal(out, at, size)
}

// A name: what opens it, its number and a closing bracket.
pub fn put_name(word: &[u8], n: usize, out: &mut [u8], at: usize) -> usize
    requires { Room at (name_text word.now n) }
    ensures { Written out.old at (name_text word.now n) out.new result }
{
    let number = output::put_bytes(out, at, word);
    let close = output::put_decimal(out, number, n as u64);
    output::put_byte(out, close, 0x29)
}

// The names of the numbers below `n`, each behind `word`.
fn put_names(word: &[u8], n: usize, out: &mut [u8], at: usize) -> usize
    requires { Room at (each (name_text word.now) 0 n) }
    ensures { Written out.old at (each (name_text word.now) 0 n) out.new result }
{
    let mut to = at;
    for i in 0..n {
        to = put_name(word, i, out, to);
    }
    to
}

// A list of declarations, left out where there are none.
pub fn put_declared(list: &[u8], word: &[u8], n: usize, out: &mut [u8], at: usize) -> usize
    requires { Room at (declared list.now word.now n) }
    ensures { Written out.old at (declared list.now word.now n) out.new result }
{
    if n == 0 {
        return at;
    }
    let names = output::put_bytes(out, at, list);
    let close = put_names(word, n, out, names);
    output::put_byte(out, close, 0x29)
}

// What opens the sum of the term at `term` and the rest: (+ (* 3 (v0)) ..
fn put_term(part: &[u8], term: usize, out: &mut [u8], at: usize) -> usize
    requires { (TermHere part.now term) × Room at (term_text (term_of part.now term)) }
    ensures { Written out.old at (term_text (term_of part.now term)) out.new result }
{
    let w = block::weight(part, term);
    let v = block::variable(part, term);
    let weight = output::put_bytes(out, at, b"(+ (* ");
    let name = put_number(w, out, weight);
    let close = put_name(b" (v", v, out, name);
    output::put_bytes(out, close, b") ")
}

// What opens a sum of these terms.
fn put_terms(terms: &Terms, out: &mut [u8], at: usize) -> usize
    requires { (SumAt terms.now.part.now terms.now.from terms.now.count)
        × Room at (term_texts (terms_at terms.now.part.now terms.now.from terms.now.count)) }
    ensures { Written out.old at (term_texts (terms_at terms.now.part.now terms.now.from terms.now.count)) out.new result }
{
    let mut to = at;
    for i in 0..terms.count {
        to = put_term(terms.part, terms.from + 4 * i, out, to);
    }
    to
}

// A closing bracket for each of `n` terms.
fn put_closes(n: usize, out: &mut [u8], at: usize) -> usize
    requires { Room at (closes n) }
    ensures { Written out.old at (closes n) out.new result }
{
    let mut to = at;
    for _ in 0..n {
        to = output::put_byte(out, to, 0x29);
    }
    to
}

// The sum of these terms and a constant.
pub fn put_sum(terms: &Terms, constant: i64, out: &mut [u8], at: usize) -> usize
    requires { (SumAt terms.now.part.now terms.now.from terms.now.count)
        × (nat_abs constant < 2 ^ 63)
        × Room at (expression_text (sum_of (terms_at terms.now.part.now terms.now.from terms.now.count) constant)) }
    ensures { Written out.old at (expression_text (sum_of (terms_at terms.now.part.now terms.now.from terms.now.count) constant)) out.new result }
{
    let number = put_terms(terms, out, at);
    let close = put_number(constant, out, number);
    put_closes(terms.count, out, close)
}
