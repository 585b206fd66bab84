//! Reads a mainnet peer log on standard input and writes its exported survey to standard output.
//!
//! What decides is in survey_export: a chunk's lines, when the text is written out, the held count and the place onward,
//! the last line. Here are the reads, the writes and what is said where one fails. A survey without its last line does
//! not count, so after a failed read the lines so far are written and nothing more, and after a failed write nothing.
//!
//! The status is 0 also after a failure: the script `survey` gives the status, by what is said on standard error.
#![tactic(auto)]

ghost use Rattle.std.specs.Prelude.{◌≡◌, length, MatchResult};
ghost use Rattle.survey_export.specs.Survey.{chunk_size, room_size, text_size};
ghost use Rattle.survey_export.specs.Program.{Progress, begun, Steps};
ghost use Rattle.survey.specs.Turn.{Leaves};

use std::io::{self, Read};
use survey_export::Kept;

// Says which stream failed, and why, by the error's own Display. Where standard error takes nothing either, nobody is left to tell.
fn say(rt: &impl Eprint, stream: &str, error: io::Error) {
    let _ = eprintln!(rt; "survey: {stream}: {error}");
}

// Reads until the chunk is full or the log ends: no method of std's does without a heap and says how much there was. A read of
// 0 bytes says that the log is over.
fn fill(input: &mut impl Read, chunk: &mut [u8]) -> io::Result<usize> {
    let mut done = 0;
    while done < chunk.len() {
        match input.read(&mut chunk[done..])? {
            0 => break,
            n => done += n,
        }
    }
    Ok(done)
}

// What is kept for the next turn, or none where the survey is over. An error is that of a write, of bytes of text. What a step works
// with is lent one by one, here and in run: a struct of it would be taken apart again by take_chunk, whose promise names each.
fn turn(
    rt: &(impl Print + Eprint),
    input: &mut impl Read,
    store: &mut [u8],
    chunk: &mut [u8],
    output: &mut [u8],
    text: &mut [u8],
    kept: Kept,
) -> io::Result<Option<Kept>>
    ensures { let z : Progress = record { store = store.old; held = kept.held; output = output.old; text = text.old; place = kept.position } in MatchResult result (λ next. Leaves z next store.new output.new text.new) (λ error. Steps z store.new output.new text.new) }
{
    match fill(input, chunk) {
        Err(error) => {
            say(rt, "standard input", error);
            rt.write_all(hns_encoding::first(text, kept.position))?;
            Ok(None)
        }
        Ok(n) => {
            let bytes = hns_encoding::first(chunk, n);
            let step = survey_export::take_chunk(store, kept, bytes, output, text);
            rt.write_all(hns_encoding::first(text, step.write))?;
            Ok(step.next)
        }
    }
}

// A proved loop has to end, and nothing says that a log does. The sizes are those of which the export's theorems speak.
fn run(
    rt: &(impl Print + Eprint),
    input: &mut impl Read,
    store: &mut [u8],
    chunk: &mut [u8],
    output: &mut [u8],
    text: &mut [u8],
) -> io::Result<()>
    requires { (length chunk.old ≡ chunk_size) × ((length store.old ≡ room_size) × ((length output.old ≡ room_size) × (length text.old ≡ text_size))) }
    ensures { Steps (begun store.old output.old text.old) store.new output.new text.new }
{
    let mut kept = Kept::default();
    for _ in 0..u64::MAX {
        let Some(next) = turn(rt, input, store, chunk, output, text, kept)? else {
            break;
        };
        kept = next;
    }
    Ok(())
}

// Arrays, since there is no heap: all that a survey works with.
fn main(rt: HostRuntime) {
    let mut store = [0u8; 24_576];
    let mut chunk = [0u8; 4_096];
    let mut output = [0u8; 24_576];
    let mut text = [0u8; 65_536];
    let written = run(
        &rt,
        &mut rt.stdin(),
        &mut store,
        &mut chunk,
        &mut output,
        &mut text,
    );
    if let Err(error) = written {
        say(&rt, "standard output", error);
    }
}
