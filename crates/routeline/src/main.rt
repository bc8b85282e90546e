// Program `routeline`: a district file on standard input, its answer lines on standard output (docs/RULES.md, "The program").
// The program is a talk with the system. What it asks next, and what the system's answer changes, is decided by functions over
// numbers and lists, each under a contract (specs/Talk.antt): nothing is read while something is owed, and an answer is written
// before a further byte is looked at. What no contract can reach is small and stands at the end: `pause`, `tell`, `hear`, `say` and
// `ask_system` as far as they call the system, the words for people, and `main`. The memory is fixed: the lists of `main`.
#![tactic(auto)]

ghost use Rattle.std.specs.Prelude.{◌≡◌, length};
ghost use Rattle.std.proofs.Math.Seq.{slice};
ghost use Rattle.index.specs.Lists.{SameIndex};
ghost use Rattle.district.specs.Reader.{Reached};
ghost use Rattle.district.specs.Lists.{lists_held, SameFileLists};
ghost use Rattle.routeline.specs.Talk.{talk_after, talk_looked};
ghost use Rattle.routeline.specs.Speaker.{talk_of, OwedWithin, Sits, StandsFor, start_speaker, event_of, unmoved_by, error_number, moved_of, error_of, reading_of, writing_of, CameWithin, WentWithin, ReadDid, WriteDid, AsksAs, Answers, looks_on, TellsAs};

use district::{FileLists, Reader};
use index::IndexLists;
use std::env::{Env, FillError};
use std::io::{Cursor, Read, Write};
use std::time::{Clock, Duration};
use std::{io, str, thread};

// The entries of the lists that hold the potentials, and where each node's arcs begin in the index: as lengths of lists.
const NODES: usize = network::MOST_NODES as usize;

const BEGINS: usize = NODES + 1;

// The bytes of one read, at the most.
const CHUNK: usize = 16384;

// The system's numbers of the two errors after which a call is made again: it was interrupted, it would have to wait. What a call
// did is defined by these numbers (`unmoved_by` in specs/Speaker.antt), so they are compared as numbers.
const INTERRUPTED: i32 = 4;

const WOULD_WAIT: i32 = 11;

// The room for the text of an error.
const REASON: usize = 128;

// How far the talk is: the input goes on, it has ended, or a read or a write has failed.
#[derive(Clone, Copy)]
enum Stage {
    Listening,
    AllHeard,
    CutShort,
}

// Where the talk stands: the reader of the file; the bytes of the chunk that are read and not yet looked at, from `from` up to
// `got`; the bytes of the room that are not yet written, from `done` up to `written`; and the stage. These are counts and no
// slices: a slice that is kept from one call to the next would lend the chunk and the room, which each read and answer overwrites.
#[derive(Clone, Copy)]
struct Speaker {
    reader: Reader,
    from: usize,
    got: usize,
    done: usize,
    written: usize,
    stage: Stage,
}

// What is asked of the system next.
#[derive(Clone, Copy)]
enum Ask {
    Write,
    Read,
    Stop,
}

// What the system did: it read so many bytes, found the end of the input, wrote so many bytes, was interrupted, would have had to
// wait, or failed.
#[derive(Clone, Copy)]
enum Did {
    Came(usize),
    Ended,
    Went(usize),
    Interrupted,
    WouldWait,
    Failed,
}

// The talk before anything is read: the file may have many queries, and its first line is line 1.
#[tactic(auto, unfolding(crate::specs::Speaker::start_speaker))]
fn begin() -> Speaker
    ensures { result ≡ start_speaker }
{
    Speaker {
        reader: district::start(false, 1),
        from: 0,
        got: 0,
        done: 0,
        written: 0,
        stage: Stage::Listening,
    }
}

// What is owed is written before anything else. Then the next bytes are read, unless there is nothing more to hear.
#[tactic(auto, using(crate::specs::SpeakerLaws::asks_owing, crate::specs::SpeakerLaws::asks_paid))]
fn asks(speaker: Speaker) -> Ask
    ensures { AsksAs speaker result }
{
    match speaker.stage {
        _ if speaker.done < speaker.written => Ask::Write,
        Stage::Listening if speaker.reader.going => Ask::Read,
        _ => Ask::Stop,
    }
}

// The bytes that are owed.
fn owed(speaker: Speaker, room: &[u8]) -> &[u8]
    requires { OwedWithin speaker room.now }
    ensures { result.now ≡ slice speaker.done speaker.written room.now }
{
    &room[speaker.done..speaker.written]
}

// Why a call moved nothing, by the system's number of the error.
#[tactic(auto, using(crate::specs::SpeakerLaws::unmoved_interrupted, crate::specs::SpeakerLaws::unmoved_later, crate::specs::SpeakerLaws::unmoved_failed))]
fn unmoved(error: i32) -> Did
    ensures { result ≡ unmoved_by error }
{
    match error {
        INTERRUPTED => Did::Interrupted,
        WOULD_WAIT => Did::WouldWait,
        _ => Did::Failed,
    }
}

// The system's number of an error, 0 where it has none.
fn number(error: io::Error) -> i32
    ensures { result ≡ error_number error }
{
    error.raw_os_error().unwrap_or(0)
}

// What a read did that answered this: 0 is the end of the input. One function for reads and writes would be handed what 0 means
// and a closure for the rest, with a contract about that closure, and be no shorter than these two.
#[tactic(auto, unfolding(crate::specs::Speaker::answer_of))]
fn reading(answer: io::Result<usize>, chunk: &[u8]) -> Did
    ensures { result ≡ reading_of (moved_of answer) (error_of answer) (length chunk.now) }
{
    match answer {
        Err(error) => unmoved(number(error)),
        Ok(0) => Did::Ended,
        Ok(got) => Did::Came(got.min(chunk.len())),
    }
}

// What a write did that answered this: one that took nothing is tried again. Why it is no one function with `reading`, that says.
#[tactic(auto, unfolding(crate::specs::Speaker::answer_of))]
fn writing(answer: io::Result<usize>, part: &[u8]) -> Did
    ensures { result ≡ writing_of (moved_of answer) (error_of answer) (length part.now) }
{
    match answer {
        Err(error) => unmoved(number(error)),
        Ok(0) => Did::WouldWait,
        Ok(put) => Did::Went(put.min(part.len())),
    }
}

// The end of the input: what it prints is owed.
#[tactic(auto, using(crate::specs::SpeakerLaws::tells_ended))]
fn ended(speaker: Speaker, room: &mut [u8]) -> Speaker
    requires { Reached speaker.reader }
    ensures { TellsAs speaker Did.Ended result room.old room.new }
{
    let written = district::end_of_input(speaker.reader, room);
    Speaker {
        done: 0,
        written,
        stage: Stage::AllHeard,
        ..speaker
    }
}

// The speaker after what the system did, before anything more is looked at. After a failure nothing is owed, and nothing is left
// to look at.
#[tactic(auto, using(crate::specs::SpeakerLaws::tells_came, crate::specs::SpeakerLaws::tells_interrupted, crate::specs::SpeakerLaws::tells_later, crate::specs::SpeakerLaws::tells_failed))]
fn told(speaker: Speaker, did: Did, room: &mut [u8]) -> Speaker
    requires reached { Reached speaker.reader }
    requires went_within { WentWithin speaker did }
    ensures { TellsAs speaker did result room.old room.new }
{
    match did {
        Did::Came(n) => Speaker {
            from: 0,
            got: n,
            ..speaker
        },
        Did::Ended => ended(speaker, room),
        Did::Went(n) => Speaker {
            done: speaker.done + n,
            ..speaker
        },
        Did::Interrupted | Did::WouldWait => speaker,
        Did::Failed => Speaker {
            from: 0,
            got: 0,
            done: 0,
            written: 0,
            stage: Stage::CutShort,
            ..speaker
        },
    }
}

// Whether a byte is looked at: there is one, nothing is owed, and no refusal has ended the file.
#[tactic(auto, unfolding(crate::specs::Speaker::looks_on))]
fn looks_on(speaker: Speaker) -> bool
    ensures { result ≡ looks_on speaker.reader speaker.from speaker.got speaker.done speaker.written }
{
    speaker.from < speaker.got && speaker.done == speaker.written && speaker.reader.going
}

// Looks at the bytes that are read, one after the other, up to the one that prints something: those of a line at once, and then
// the one that ends it. Where something is owed, or a refusal has ended the file, no byte is looked at. The bytes are counted by
// the speaker and not by an iterator, since the next call goes on from there.
#[tactic(auto, using(crate::specs::SpeakerLaws::looks_on_more, crate::specs::SpeakerLaws::held_fit, crate::specs::SpeakerLaws::held_on))]
fn look(
    mut speaker: Speaker,
    chunk: &[u8],
    lists: &mut FileLists,
    index: &mut IndexLists<&mut [u16]>,
    room: &mut [u8],
) -> Speaker
    requires { Sits speaker (lists_held lists.old index.old) chunk.now room.old }
    ensures stands { StandsFor
        (talk_looked (talk_of speaker (lists_held lists.old index.old) chunk.now room.old))
        result
        (lists_held lists.new index.new)
        chunk.now
        room.new }
    ensures same_lists { SameFileLists lists.old lists.new }
    ensures same_index { SameIndex index.old index.new }
{
    while looks_on(speaker) {
        let bytes = &chunk[speaker.from..speaker.got];
        let held = district::hold(speaker.reader, bytes, lists.line);
        speaker.reader.held += held;
        speaker.from += held;
        if speaker.from == speaker.got {
            continue;
        }
        let taken = district::take_byte(speaker.reader, chunk[speaker.from], lists, index, room);
        speaker = Speaker {
            reader: taken.reader,
            from: speaker.from + 1,
            done: 0,
            written: taken.written,
            ..speaker
        };
    }
    speaker
}

// The speaker after what the system did.
fn after(
    speaker: Speaker,
    did: Did,
    chunk: &[u8],
    lists: &mut FileLists,
    index: &mut IndexLists<&mut [u16]>,
    room: &mut [u8],
) -> Speaker
    requires sits { Sits speaker (lists_held lists.old index.old) chunk.now room.old }
    requires came_within { CameWithin did (length chunk.now) }
    requires went_within { WentWithin speaker did }
    ensures stands { StandsFor
        (talk_after (talk_of speaker (lists_held lists.old index.old) chunk.now room.old) (event_of did chunk.now))
        result
        (lists_held lists.new index.new)
        chunk.now
        room.new }
    ensures same_lists { SameFileLists lists.old lists.new }
    ensures same_index { SameIndex index.old index.new }
{
    let next = told(speaker, did, room);
    look(next, chunk, lists, index, room)
}

// Waits for a thousandth of a second.
fn pause(rt: &impl Clock) {
    thread::sleep(rt, Duration::from_millis(1));
}

// What the text of an error says of the reason: std writes the number of the error after it, in brackets.
fn reason(text: &[u8]) -> &str {
    let text = str::from_utf8(text).unwrap_or("");
    match text.split_once(" (os error ") {
        Some((reason, _)) => reason,
        None => text.trim_end_matches('\0'),
    }
}

// Says on standard error what failed, a colon and the system's reason.
fn fail(rt: &impl Eprint, words: &str, error: io::Error) {
    let mut room = [0u8; REASON];
    let mut text = Cursor::new(&mut room[..]);
    let _ = write!(text, "{error}");
    let _ = eprintln!(rt; "{words}: {}", reason(&room));
}

// A call that failed is told on standard error, with the system's reason. One that would have had to wait is made again after a
// pause.
fn tell<R: Eprint + Clock>(rt: &R, did: Did, words: &str, answer: io::Result<usize>) {
    match (did, answer) {
        (Did::Failed, Err(error)) => fail(rt, words, error),
        (Did::WouldWait, _) => pause(rt),
        _ => {}
    }
}

// Reads once. It differs from `say` in the call, in what the answer means and in the words; what is the same is `tell`.
#[tactic(auto, using(crate::specs::SpeakerLaws::reads))]
fn hear<R: Eprint + Clock, I: Read>(rt: &R, input: &mut I, chunk: &mut [u8]) -> Did
    ensures { ReadDid (length chunk.new) result }
{
    let answer = input.read(chunk);
    let did = reading(answer, chunk);
    tell(
        rt,
        did,
        "routeline: the file is cut short, standard input cannot be read",
        answer,
    );
    did
}

// Writes once. It differs from `hear` in the call, in what the answer means and in the words; what is the same is `tell`.
#[tactic(auto, using(crate::specs::SpeakerLaws::writes))]
fn say<R: Eprint + Clock, O: Write>(rt: &R, output: &mut O, part: &[u8]) -> Did
    ensures { WriteDid (length part.now) result }
{
    let answer = output.write(part);
    let did = writing(answer, part);
    tell(
        rt,
        did,
        "routeline: the answers are cut short, standard output cannot be written",
        answer,
    );
    did
}

// Asks the system for what the talk asks. Where that is to stop, nothing happens. The first three parameters are the system.
fn ask_system<R: Eprint + Clock, I: Read, O: Write>(
    rt: &R,
    input: &mut I,
    output: &mut O,
    ask: Ask,
    speaker: Speaker,
    chunk: &mut [u8],
    room: &[u8],
) -> Did
    requires { OwedWithin speaker room.now }
    ensures { Answers ask speaker result chunk.old chunk.new }
{
    match ask {
        Ask::Write => {
            let part = owed(speaker, room);
            say(rt, output, part)
        }
        Ask::Read => hear(rt, input, chunk),
        Ask::Stop => Did::Interrupted,
    }
}

// Whether the program was given an argument: one after its own name.
fn has_argument(rt: &impl Env) -> bool {
    let mut word = [0u8; 1];
    !matches!(rt.arg(1, &mut word), Err(FillError::NotPresent))
}

// What the program is and how it is called, for whoever gives it an argument.
fn explain(rt: &impl Eprint) {
    let _ = rt.eprint(
        "routeline answers route queries: a district file on standard input, its answer lines on standard output.
usage: routeline < FILE
It takes no arguments. README.md says what a file holds and what the answers mean, docs/RULES.md gives the rules.
",
    );
}

// Asks until the talk asks to stop. The language wants a bound on every loop: it is more than can be asked in a thousand years,
// and were it used up, that would be told.
#[tactic(auto, using(crate::specs::SpeakerLaws::holds_start))]
fn main(rt: HostRuntime) {
    if has_argument(&rt) {
        explain(&rt);
        return;
    }
    let mut input = rt.stdin();
    let mut output = rt.stdout();
    let mut line = [0u8; frames::MOST_DIGITS];
    let mut tails = [0u16; network::MOST_ARCS];
    let mut heads = [0u16; network::MOST_ARCS];
    let mut weights = [0u32; network::MOST_ARCS];
    let mut out_arcs = [0u16; network::MOST_ARCS];
    let mut out_begins = [0u16; BEGINS];
    let mut in_arcs = [0u16; network::MOST_ARCS];
    let mut in_begins = [0u16; BEGINS];
    let mut forward = [0i32; NODES];
    let mut backward = [0i32; NODES];
    let mut lists = FileLists {
        line: &mut line,
        tails: &mut tails,
        heads: &mut heads,
        weights: &mut weights,
        forward: &mut forward,
        backward: &mut backward,
    };
    let mut index = IndexLists {
        out_arcs: &mut out_arcs[..],
        out_begins: &mut out_begins[..],
        in_arcs: &mut in_arcs[..],
        in_begins: &mut in_begins[..],
    };
    let mut chunk = [0u8; CHUNK];
    let mut room = [0u8; district::MOST_BYTES];
    let mut speaker = begin();
    for _ in 0..u64::MAX {
        let ask = asks(speaker);
        if let Ask::Stop = ask {
            return;
        }
        let did = ask_system(
            &rt,
            &mut input,
            &mut output,
            ask,
            speaker,
            &mut chunk,
            &room,
        );
        speaker = after(speaker, did, &chunk, &mut lists, &mut index, &mut room);
    }
    let _ = eprintln!(&rt; "routeline: the answers are cut short, the system was asked too often");
}
