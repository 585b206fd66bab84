//! What test programs print of an answer, as values with Display: numbers, bytes in hexadecimal, refusals, rows. A program prints
//! them by std's `print!`, which promises nothing of what it writes but the error of a write that failed.
#![tactic(auto)]

ghost use Rattle.std.specs.Prelude.{◌≡◌, ◌==◌, take, drop, slice_index, Some, if◌then◌else◌};
ghost use Rattle.hns_refusals.specs.Refusals.{spaced};
ghost use Rattle.case_lines.specs.Texts.{hex_text, shown_text, behind_text, answered_text};

use hns_refusals::Refusal;
use std::fmt::{self, Display};

// The bytes that are shown where there may be megabytes.
const SHOWN: usize = 800;

// Bytes in hexadecimal.
#[derive(Clone, Copy, Debug, PartialEq, Eq)]
pub struct Hex<'a>(pub &'a [u8]);

impl Display for Hex<'_> {
    ghost output = { λ hex. Some (hex_text hex.0.now) };

    fn fmt<W: fmt::Write>(&self, f: &mut fmt::Formatter<W>) -> fmt::Result {
        for byte in self.0 {
            write!(f, "{byte:02x}")?;
        }
        Ok(())
    }
}

// The first bytes, or that there are none.
#[derive(Clone, Copy, Debug, PartialEq, Eq)]
pub struct Shown<'a>(pub &'a [u8]);

impl Display for Shown<'_> {
    ghost output = { λ shown. Some (shown_text shown.0.now) };

    #[tactic(auto, unfolding(crate::specs::Texts::shown_text))]
    fn fmt<W: fmt::Write>(&self, f: &mut fmt::Formatter<W>) -> fmt::Result {
        if self.0.is_empty() {
            write!(f, "-")
        } else {
            write!(f, "{}", Hex(hns_encoding::first(self.0, SHOWN)))
        }
    }
}

// Bytes behind a space, or nothing if there are none.
#[derive(Clone, Copy, Debug, PartialEq, Eq)]
pub struct Behind<'a>(pub &'a [u8]);

impl Display for Behind<'_> {
    ghost output = { λ behind. Some (behind_text behind.0.now) };

    #[tactic(auto, unfolding(crate::specs::Texts::behind_text))]
    fn fmt<W: fmt::Write>(&self, f: &mut fmt::Formatter<W>) -> fmt::Result {
        if self.0.is_empty() {
            Ok(())
        } else {
            write!(f, " {}", Hex(self.0))
        }
    }
}

// Numbers, each behind a space. Its fmt is that of Hex but for the text, which `write!` takes only as it stands.
#[derive(Clone, Copy, Debug, PartialEq, Eq)]
pub struct Numbers<'a>(pub &'a [u64]);

impl Display for Numbers<'_> {
    ghost output = { λ numbers. Some (spaced numbers.0.now) };

    fn fmt<W: fmt::Write>(&self, f: &mut fmt::Formatter<W>) -> fmt::Result {
        for n in self.0 {
            write!(f, " {n}")?;
        }
        Ok(())
    }
}

// What was answered, or the refusal.
#[derive(Debug, PartialEq, Eq, Drop)]
pub struct Answered<T>(pub Result<T, Refusal>);

impl<T: Display> Display for Answered<T> {
    ghost output = { λ answered. answered_text T.output answered.0 };

    #[tactic(auto, unfolding(crate::specs::Texts::answered_text))]
    fn fmt<W: fmt::Write>(&self, f: &mut fmt::Formatter<W>) -> fmt::Result {
        match &self.0 {
            Ok(value) => write!(f, "{value}"),
            Err(refusal) => write!(f, "refused {refusal}"),
        }
    }
}

// So many bytes at a place. `part` and `counted` print nothing: what they answer is shown.
pub fn part(bytes: &[u8], at: u64, n: u64) -> Shown<'_>
    ensures { result.0.now ≡ take n (drop at bytes.now) }
{
    let there = hns_encoding::from_place(bytes, at as usize);
    Shown(hns_encoding::first(there, n as usize))
}

// The one number of a row that is an answer, behind its 0, or the refusal: its number and values. A row for C is numbers.
pub fn counted(row: &[u64; 16]) -> Numbers<'_>
    ensures { result.0.now ≡ take (if slice_index row.now 0 == 0 then 2 else 4) row.now }
{
    if let [0, ..] = row {
        Numbers(&row[..2])
    } else {
        Numbers(&row[..4])
    }
}
