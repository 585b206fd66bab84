//! Cases of test programs: a line of standard input is a case in hexadecimal, and a program answers one after the other.
#![tactic(auto)]

ghost use Rattle.std.specs.Prelude.{◌≡◌, ℕ, OnOk, IfOk, IfSome, ◌+◌, ◌-◌, ◌%◌, ◌<◌, ◌≤◌, length, take, drop, fold, slice_index, EachIndex};
ghost use Rattle.std.specs.Fn.{FnOnceReturnsAt, CalledAt};
ghost use Rattle.case_input.specs.Cases.{Begun, begun, with_digit, with_any, TakenAs, AnswersPart, AnswersBy, AnswersRead, AnswersReadAny};
ghost use Rattle.case_input.specs.Zeros.{Zeros, Around, long_case};
ghost use Rattle.case_input.specs.Outputs.{mixed};
ghost use Rattle.case_input.specs.Questions.{asked_of, long_question};

use std::io::{self, Read};

// There is no heap: a case stands in a buffer that is lent, with its size beside it, and what is told of a buffer stands in each contract.
// The language asks of a lent closure that it can be called, of each function that is lent one.

// The line so far: how many bytes it has given, and the value of a digit behind them.
#[derive(Clone, Copy, Debug, Default, PartialEq, Eq)]
struct Line {
    size: usize,
    half: Option<u8>,
}

// How a byte of a line is taken: by its value as a digit, if it has one. A trait, since a const parameter of type bool can't stand beside
// the closure's type in `take_bytes` (docs/DECISIONS.md, 130).
trait Digit {
    ghost taken: { ℕ → Begun → ℕ → Begun };

    fn value(digit: u8) -> Option<u8>
        ensures small { IfSome result (λ value. value < 16) }
        ensures taken { TakenAs taken digit result };
}

// What is no digit has no value.
struct Hexadecimal;

impl Digit for Hexadecimal {
    ghost taken = { with_digit };

    #[tactic(auto, using(crate::proofs::Cases::digit_there, crate::proofs::Cases::digit_missing))]
    fn value(digit: u8) -> Option<u8> {
        let value = char::from(digit).to_digit(16)?;
        Some(value as u8)
    }
}

// Any byte has one, by one sum for figures and letters.
struct AnyByte;

impl Digit for AnyByte {
    ghost taken = { with_any };

    #[tactic(auto, using(crate::proofs::Cases::any_there))]
    fn value(digit: u8) -> Option<u8> {
        let value = (digit % 16 + digit / 58 * 9) % 16;
        Some(value)
    }
}

// Takes a digit: two make a byte. What is none, and one that there is no room for, is passed over.
#[tactic(auto, using(crate::proofs::Cases::no_digit, crate::proofs::Cases::no_room, crate::proofs::Cases::first_digit, crate::proofs::Cases::second_digit))]
fn take_digit<D: Digit>(line: Line, digit: u8, case: &mut [u8]) -> Line
    requires { line.size ≤ length case.old }
    ensures room { length case.new ≡ length case.old }
    ensures within { result.size ≤ length case.old }
    ensures begun { begun result case.new ≡ D.taken (length case.old) (begun line case.old) digit }
{
    let size = line.size;
    let Some(value) = D::value(digit) else {
        return line;
    };
    if case.len() <= size {
        return line;
    }
    match line.half {
        None => {
            case[size] = case[size] % 16 * 16 + value;
            Line {
                size,
                half: Some(value),
            }
        }
        Some(high) => {
            case[size] = high % 16 * 16 + value;
            Line {
                size: size + 1,
                half: None,
            }
        }
    }
}

// Takes what was read, and has each case answered that ends in it: what it promises holds whatever is read after. It prints the end of
// the answer's line and nothing of a value.
fn take_bytes<D: Digit, F: FnMut(&[u8]) -> io::Result<()>>(
    rt: &impl Print,
    before: Line,
    bytes: &[u8],
    case: &mut [u8],
    answer: &mut F,
) -> io::Result<Line>
    requires callable { F.IsAlwaysCallable answer.old }
    requires within { before.size ≤ length case.old }
    ensures still_callable { F.IsAlwaysCallable answer.new }
    ensures room { length case.new ≡ length case.old }
    ensures still_within { IfOk result (λ line. line.size ≤ length case.old) }
    ensures answered { IfOk result (λ line. AnswersPart (CalledAt F.FnMut) D.taken (length case.old) answer.old (begun before case.old) bytes.now answer.new (begun line case.new)) }
{
    let mut line = before;
    for byte in bytes {
        if *byte == b'\n' {
            answer(hns_encoding::first(case, line.size))?;
            println!(rt)?;
            line = Line::default();
        } else {
            line = take_digit::<D>(line, *byte, case);
        }
    }
    Ok(line)
}

// Answers each case of what was read, one after the other, each in a line of its own. A read that fails is taken for one that gives
// nothing: a program that loses its cases so prints less than its file `stdout` holds, and `rt ci` compares the two. The input is over
// where nothing comes into an empty buffer; a terminal, say, may end it and go on.
fn run_by<D: Digit, I: Read, F: FnMut(&[u8]) -> io::Result<()>>(
    rt: &impl Print,
    input: &mut I,
    buffer: &mut [u8],
    case: &mut [u8],
    mut answer: F,
) -> io::Result<()>
    requires { F.IsAlwaysCallable answer }
    ensures { OnOk result (AnswersBy (CalledAt F.FnMut) D.taken (length case.old) answer (I.remaining input.old) (I.remaining input.new)) }
{
    let mut line = Line::default();
    let mut filled = 0;
    // A proved loop has to end, and nothing says that an input does.
    for _ in 0..u64::MAX {
        let rest = &mut buffer[filled..];
        let room = rest.len();
        let n = input.read(rest).unwrap_or(0);
        if n == 0 && filled == 0 {
            break;
        }
        line = take_bytes::<D, F>(rt, line, &rest[..n], case, &mut answer)?;
        filled = if n == 0 || n == room { 0 } else { filled + n };
    }
    Ok(())
}

// Answers each case of an input, as said above; what is no digit is passed over. No program calls it (docs/DECISIONS.md, 130).
pub fn run<I: Read, F: FnMut(&[u8]) -> io::Result<()>>(
    rt: &impl Print,
    input: &mut I,
    buffer: &mut [u8],
    case: &mut [u8],
    answer: F,
) -> io::Result<()>
    requires { F.IsAlwaysCallable answer }
    ensures { OnOk result (AnswersRead (CalledAt F.FnMut) (length case.old) answer (I.remaining input.old) (I.remaining input.new)) }
{
    run_by::<Hexadecimal, I, F>(rt, input, buffer, case, answer)
}

// The same, where any byte of a line but its end is a digit: the loop of seven test programs.
pub fn run_any<I: Read, F: FnMut(&[u8]) -> io::Result<()>>(
    rt: &impl Print,
    input: &mut I,
    buffer: &mut [u8],
    case: &mut [u8],
    answer: F,
) -> io::Result<()>
    requires { F.IsAlwaysCallable answer }
    ensures { OnOk result (AnswersReadAny (CalledAt F.FnMut) (length case.old) answer (I.remaining input.old) (I.remaining input.new)) }
{
    run_by::<AnyByte, I, F>(rt, input, buffer, case, answer)
}

// How far an input is taken, for a program that works in the buffer of its cases, with what earlier lines left there: a closure is lent a
// case's own bytes alone. By steps that are counted down, so that what a case is told of holds after a failed read too.
#[derive(Clone, Copy, Debug, PartialEq, Eq)]
pub struct Lines {
    // How many steps may follow, none after the last case: a proved loop has to end, and nothing says that an input does.
    pub left: u64,
    // The bytes of the case.
    pub size: usize,
    half: Option<u8>,
    // Whether the line has ended.
    whole: bool,
    // The bytes in the lent buffer, and how many of them are taken.
    filled: usize,
    at: usize,
}

// Reads until the buffer is full or a read gives nothing, which is 0: no method of std's does without a heap and says how much there was.
fn read_full(input: &mut impl Read, buffer: &mut [u8]) -> usize
    ensures { result ≤ length buffer.old }
{
    let mut filled = 0;
    while filled < buffer.len() {
        match input.read(&mut buffer[filled..]).unwrap_or(0) {
            0 => break,
            n => filled += n,
        }
    }
    filled
}

fn read_on(lines: Lines, input: &mut impl Read, buffer: &mut [u8]) -> Lines
    requires { 0 < lines.left }
    ensures { (result.left ≤ lines.left - 1) × (result.size ≡ lines.size) }
{
    let filled = read_full(input, buffer);
    let left = if filled == 0 { 0 } else { lines.left - 1 };
    Lines {
        left,
        filled,
        at: 0,
        ..lines
    }
}

// Takes the next byte of the buffer, which is filled again where there is none.
fn step(lines: Lines, input: &mut impl Read, buffer: &mut [u8], case: &mut [u8]) -> Lines
    requires { (0 < lines.left) × (lines.size ≤ length case.old) }
    ensures { (result.left ≤ lines.left - 1) × (result.size ≤ length case.old) }
{
    let at = lines.at;
    if lines.filled <= at {
        return read_on(lines, input, buffer);
    }
    let byte = hns_encoding::u8_at(buffer, at);
    let next = Lines {
        left: lines.left - 1,
        at: at + 1,
        whole: byte == b'\n',
        ..lines
    };
    if next.whole {
        return next;
    }
    let line = Line {
        size: lines.size,
        half: lines.half,
    };
    let Line { size, half } = take_digit::<AnyByte>(line, byte, case);
    Lines { size, half, ..next }
}

// The next case, if steps are left. The input and the buffer are those that were lent before, as they were left.
pub fn next_case(lines: Lines, input: &mut impl Read, buffer: &mut [u8], case: &mut [u8]) -> Lines
    ensures { (result.left ≤ lines.left - 1) × (result.size ≤ length case.old) }
{
    let mut now = Lines {
        size: 0,
        half: None,
        whole: false,
        ..lines
    };
    while 0 < now.left {
        now = step(now, input, buffer, case);
        if now.whole {
            return now;
        }
    }
    now
}

pub fn first_case(input: &mut impl Read, buffer: &mut [u8], case: &mut [u8]) -> Lines
    ensures { result.size ≤ length case.old }
{
    let before = Lines {
        left: u64::MAX,
        size: 0,
        half: None,
        whole: false,
        filled: 0,
        at: 0,
    };
    next_case(before, input, buffer, case)
}

// Where the zeros of a long case stand, and where it ends.
#[derive(Clone, Copy, Debug, PartialEq, Eq)]
pub struct Long {
    pub zeros: usize,
    pub end: usize,
    pub size: usize,
}

// Puts the bytes of a long case around the zeros that its line leaves out: so a short line has a case of megabytes. What
// there is no room for is left out.
#[tactic(auto, using(crate::proofs::Zeros::placed))]
pub fn put_long(given: &[u8], before: usize, zeros: usize, long: &mut [u8]) -> Long
    ensures zeros_le_end { (result.zeros ≤ result.end) × ((result.end ≤ result.size) × (result.size ≤ length long.old)) }
    ensures around { Zeros long.old → Around long.new result.zeros result.end result.size }
    ensures bytes { Zeros long.old → take result.size long.new ≡ long_case given.now before zeros (length long.old) }
{
    let room = long.len();
    let start = before.min(room);
    let end = start + zeros.min(room - start);
    let rest = hns_encoding::from_place(given, before);
    let more = rest.len().min(room - end);
    let size = end + more;
    let front = hns_encoding::first(given, start);
    long[..front.len()].copy_from_slice(front);
    long[end..size].copy_from_slice(&rest[..more]);
    Long {
        zeros: start,
        end,
        size,
    }
}

// Makes what was put zeros again, so that no case has to write megabytes.
pub fn clear_long(put: Long, long: &mut [u8])
    ensures { Around long.old put.zeros put.end put.size → Zeros long.new }
{
    let zeros = put.zeros.min(long.len());
    let size = put.size.min(long.len());
    let end = put.end.min(size);
    long[..zeros].fill(0);
    long[end..size].fill(0);
}

// Asks what is to be asked of a long case, and makes its bytes zeros again.
pub fn with_long<T, F: FnOnce(&[u8]) -> T>(
    given: &[u8],
    before: usize,
    zeros: usize,
    long: &mut [u8],
    ask: F,
) -> T
    requires { F.IsAlwaysCallable ask }
    ensures answer { Zeros long.old → FnOnceReturnsAt F.FnOnce ask (long_case given.now before zeros (length long.old)) result }
    ensures cleared { Zeros long.old → Zeros long.new }
{
    let put = put_long(given, before, zeros, long);
    let answer = ask(&long[..put.size]);
    clear_long(put, long);
    answer
}

// What stands before the bytes of a case of the Rust's answers: its kind, a packet type or a network, and three numbers. The kind is
// the case's byte and no enum, since each program has kinds of its own.
#[derive(Clone, Copy, Debug, PartialEq, Eq)]
pub struct Asked {
    pub kind: u8,
    pub about: u8,
    pub a: u64,
    pub b: u64,
    pub c: u64,
}

pub fn question(case: &[u8]) -> Asked
    ensures { result ≡ asked_of case.now }
{
    Asked {
        kind: hns_encoding::u8_at(case, 0),
        about: hns_encoding::u8_at(case, 1),
        a: hns_encoding::u64_at(case, 2),
        b: hns_encoding::u64_at(case, 10),
        c: hns_encoding::u64_at(case, 18),
    }
}

pub fn question_bytes(case: &[u8]) -> &[u8]
    ensures { result.now ≡ drop 26 case.now }
{
    hns_encoding::from_place(case, 26)
}

// Puts the bytes of a long question: its last two numbers say which zeros they leave out.
pub fn put_question(case: &[u8], long: &mut [u8]) -> Long
    ensures zeros_le_end { (result.zeros ≤ result.end) × ((result.end ≤ result.size) × (result.size ≤ length long.old)) }
    ensures around { Zeros long.old → Around long.new result.zeros result.end result.size }
    ensures bytes { Zeros long.old → take result.size long.new ≡ long_question case.now (length long.old) }
{
    let q = question(case);
    put_long(question_bytes(case), q.b as usize, q.c as usize, long)
}

// Asks a long question: its last two numbers say which zeros its bytes leave out.
pub fn with_question<T, F: FnOnce(Asked, &[u8]) -> T>(case: &[u8], long: &mut [u8], ask: F) -> T
    requires { F.IsAlwaysCallable ask }
    ensures answer { Zeros long.old → (bytes : _) × F.post ask (asked_of case.now) bytes result × (bytes.now ≡ long_question case.now (length long.old)) }
    ensures cleared { Zeros long.old → Zeros long.new }
{
    let q = question(case);
    let given = question_bytes(case);
    with_long(
        given,
        q.b as usize,
        q.c as usize,
        long,
        |bytes| ask(q, bytes),
    )
}

// What a store or an output holds at a place before a call. No byte is zero, since what is not kept is written as zero, and no two
// near each other are the same, so that a byte that moved shows.
pub fn filler(place: usize) -> u8
    ensures { result ≡ place % 251 + 1 }
{
    (place % 251 + 1) as u8
}

pub fn fill(out: &mut [u8])
    ensures size { length out.new ≡ length out.old }
    ensures bytes { EachIndex out.new (λ k. slice_index out.new k ≡ k % 251 + 1) }
{
    for (place, byte) in out.iter_mut().enumerate() {
        *byte = filler(place);
    }
}

// A number for all bytes of an output, those that are not shown among them.
pub fn sum(bytes: &[u8]) -> u64
    ensures { result ≡ fold mixed 0 bytes.now }
{
    bytes.iter().fold(0, |sum, byte| sum % 4_294_967_291 * 257 + u64::from(*byte))
}

// An array as a slice. `main` knows each byte of its array, and a proof there that counts them takes a step for each; here the type says
// how many there are.
pub fn whole<const N: usize>(array: &mut [u8; N]) -> &mut [u8]
    ensures { result.now ≡ array.entry.now }
{
    array
}

#[cfg(test)]
mod tests {
    use super::*;
    use hns_encoding::u8_at;
    use std::test::Fail;

    // Of the last case that a text of two lines has: how many bytes, and the first two.
    #[test]
    fn what_is_no_digit(rt: HostRuntime) -> Result<(), Fail> {
        for (any, want) in [(false, (1, 18, 0)), (true, (2, 1, 2))] {
            let mut text = b"7f\n 1g2\n".as_slice();
            let mut buffer = [0; 3];
            let mut case = [0; 4];
            let mut seen = (0, 0, 0);
            let answer = |bytes: &[u8]| {
                seen = (bytes.len(), u8_at(bytes, 0), u8_at(bytes, 1));
                Ok(())
            };
            if any {
                run_any(&rt, &mut text, &mut buffer, &mut case, answer)?;
            } else {
                run(&rt, &mut text, &mut buffer, &mut case, answer)?;
            }
            assert_eq!(rt; seen, want, "any byte a digit: {any}");
        }
        Ok(())
    }
}
