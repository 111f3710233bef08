// Rows in ordinary notation, and causes by number and text.
ghost use Rattle.std.specs.Prelude.{◌≡◌, Some};
ghost use Rattle.std.specs.Fmt.{WritesOnOk};
ghost use Rattle.rows.specs.Causes.{judge_cause_number};
ghost use Rattle.rows.specs.Texts.{sign_text, term_text, more_terms_text, more_text, sum_text, row_text, judge_cause_meaning, judge_cause_text};

use crate::cause::JudgeCause;
use crate::row::{Relation, Row, Term};
use std::fmt;

impl JudgeCause {
    pub fn number(&self) -> u32
        ensures { result ≡ judge_cause_number self.now }
    {
        *self as u32
    }

    // What the number stands for, in words.
    pub fn meaning(&self) -> &'static str
        ensures { result.now ≡ judge_cause_meaning self.now }
    {
        match *self {
            JudgeCause::TooManyRows => "too many rows",
            JudgeCause::BadVoucher => "voucher of wrong length or range",
            JudgeCause::BadShape => "a row of wrong shape",
            JudgeCause::UnknownsLeft => "unknowns left over",
            JudgeCause::NoConflict => "constant without conflict",
        }
    }
}

impl fmt::Display for JudgeCause {
    ghost output = { λ e. Some (judge_cause_text e) };

    fn fmt<W: fmt::Write>(&self, f: &mut fmt::Formatter<W>) -> fmt::Result {
        write!(f, "cause {}: {}", self.number(), self.meaning())
    }
}

fn sign(first: bool, negative: bool) -> &'static str
    ensures { result.now ≡ sign_text first negative }
{
    match (first, negative) {
        (true, false) => "",
        (true, true) => "-",
        (false, false) => " + ",
        (false, true) => " - ",
    }
}

// A term, which is the first one of its row or stands after another.
fn put_term<W: fmt::Write>(f: &mut fmt::Formatter<W>, term: &Term, first: bool) -> fmt::Result
    ensures { WritesOnOk W.write_str_gives f.old result (term_text first term.now) f.new }
{
    let sign = sign(first, term.coefficient < 0);
    let object = term.unknown.object;
    let attribute = term.unknown.attribute;
    match term.coefficient.unsigned_abs() {
        1 => write!(f, "{sign}u{object}.{attribute}"),
        factor => write!(f, "{sign}{factor} u{object}.{attribute}"),
    }
}

// Terms that stand after another.
fn put_more_terms<W: fmt::Write>(f: &mut fmt::Formatter<W>, terms: &[Term]) -> fmt::Result
    ensures { WritesOnOk W.write_str_gives f.old result (more_terms_text terms.now) f.new }
{
    for term in terms {
        put_term(f, term, false)?;
    }
    Ok(())
}

// A constant that stands after a term.
fn put_more<W: fmt::Write>(f: &mut fmt::Formatter<W>, constant: i64) -> fmt::Result
    ensures { WritesOnOk W.write_str_gives f.old result (more_text constant) f.new }
{
    let sign = sign(false, constant < 0);
    match constant.unsigned_abs() {
        // The writer is called for each part of a row, an empty one too.
        0 => f.write_str(""),
        size => write!(f, "{sign}{size}"),
    }
}

fn put_sum<W: fmt::Write>(f: &mut fmt::Formatter<W>, terms: &[Term], constant: i64) -> fmt::Result
    ensures { WritesOnOk W.write_str_gives f.old result (sum_text terms.now constant) f.new }
{
    match terms {
        [] => write!(f, "{constant}"),
        [first, more @ ..] => {
            put_term(f, first, true)?;
            put_more_terms(f, more)?;
            put_more(f, constant)
        }
    }
}

impl fmt::Display for Row {
    ghost output = { λ row. Some (row_text row) };

    fn fmt<W: fmt::Write>(&self, f: &mut fmt::Formatter<W>) -> fmt::Result {
        put_sum(f, self.terms(), self.constant)?;
        match self.relation {
            Relation::AtLeast => f.write_str(" >= 0"),
            Relation::Equal => f.write_str(" = 0"),
        }
    }
}
