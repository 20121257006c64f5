ghost use Rattle.std.specs.Prelude.{◌≡◌, ◌≢◌, ℕ, ◌+◌, ◌≤◌, ◌<◌, ◌^◌, List, [], length, drop, codes, Some, None, false, slice_get, IsTrue, ◌↔◌, IfOk, IfErr, IfSome, OnOk};
ghost use Rattle.std.specs.Fmt.{decimal};
ghost use Rattle.plan_show.specs.declared.question.Question.{Question};
ghost use Rattle.top_run.specs.declared.command.Detail.{Detail};
ghost use Rattle.top_run.specs.Words.{spelled, IsFile, AreRing, AreStorm, AreFile, AreFileAndOptions, AreSettings, AreShow, Accepts, detail_word, has_detail};
ghost use Rattle.top_run.specs.Words.{question_word, question_names, question_words, IsRing, IsStorm, IsOneFile, IsFileAndOptions, HasOptions, IsShow, IsQuestion};
ghost use Rattle.top_run.specs.Words.{RefusedAt, IsRefusedFrom, IsNumberAt, IsUsage};

use crate::command::{Command, Detail, FileName, Options, Ring};
use crate::refusal::Refusal;
use plan_show::Question;
use sim_base::{Body, OutOfMemory, Time};
use std::alloc::Global;
use storm_gen::MOST_AGENTS;

/// The greatest time that a word may ask for, in picoseconds.
const LATEST: u64 = 500_000_000_000;

/// The only number that a word may be.
fn parsed(word: &str) -> Option<u64>
    ensures { (n : ℕ) → n < 2 ^ 64 → word.now ≡ decimal n → result ≡ Some n }
{
    match word.parse::<u64>() {
        Ok(n) => Some(n),
        Err(_) => None,
    }
}

fn kept(
    alloc: Global,
    word: &str,
    n: u64,
    least: u64,
    most: u64,
) -> Result<Option<u64>, OutOfMemory>
    ensures some { IfOk result (λ o.
        IfSome o (λ m. (word.now ≡ decimal m) × (least ≤ m) × (m ≤ most))) }
    ensures none { result ≡ Ok None → least ≤ n → n ≤ most → word.now ≢ decimal n }
{
    let text = format!(in alloc; "{n}")?;
    if text.as_bytes() == word.as_bytes() && least <= n && n <= most {
        Ok(Some(n))
    } else {
        Ok(None)
    }
}

/// The number that a word is: in decimal digits without a sign or a leading zero, and in the range.
fn number(alloc: Global, word: &str, least: u64, most: u64) -> Result<Option<u64>, OutOfMemory>
    ensures some { IfOk result (λ o.
        IfSome o (λ n. (word.now ≡ decimal n) × (least ≤ n) × (n ≤ most))) }
    ensures none { result ≡ Ok None → (n : ℕ) → least ≤ n → n ≤ most → word.now ≢ decimal n }
{
    match parsed(word) {
        Some(n) => kept(alloc, word, n, least, most),
        None => Ok(None),
    }
}

fn number_at(
    alloc: Global,
    words: &[String],
    place: usize,
    least: u64,
    most: u64,
) -> Result<Option<u64>, OutOfMemory>
    ensures some { IfOk result (λ o.
        IfSome o (λ n. IsNumberAt (spelled words.now) place least most n)) }
    ensures none { result ≡ Ok None → (n : ℕ)
        → IsNumberAt (spelled words.now) place least most n → ⊥ }
{
    match words.get(place) {
        Some(word) => number(alloc, word.as_str(), least, most),
        None => Ok(None),
    }
}

fn is_word(words: &[String], place: usize, text: &[u8]) -> bool
    ensures { IsTrue result ↔ (slice_get (spelled words.now) place ≡ Some text.now) }
{
    match words.get(place) {
        Some(word) => word.as_bytes() == text,
        None => false,
    }
}

/// Whether a word names a file: it has a first byte, and that is no `-`.
fn is_file(word: &str) -> bool
    ensures { IsTrue result ↔ IsFile word.now }
{
    match word.as_bytes().first() {
        Some(first) => *first != b'-',
        None => false,
    }
}

/// The number of this place, or a refusal from there on.
fn need_number(
    alloc: Global,
    words: &[String],
    place: usize,
    least: u64,
    most: u64,
) -> Result<u64, Refusal>
    requires near { place ≤ length words.now }

    ensures some { IfOk result (λ n. IsNumberAt (spelled words.now) place least most n) }
    ensures here { OnOk result (place < length words.now) }
    ensures none { IfErr result (IsUsage (λ k. (k ≡ place + 1)
        × ((n : ℕ) → IsNumberAt (spelled words.now) place least most n → ⊥))) }
{
    match number_at(alloc, words, place, least, most)? {
        Some(n) => Ok(n),
        None => Err(Refusal::Usage(place + 1)),
    }
}

/// The file of this place, or a refusal from there on.
fn need_file(alloc: Global, words: &[String], place: usize) -> Result<FileName, Refusal>
    requires near { place ≤ length words.now }

    ensures some { IfOk result (λ file.
        (slice_get (spelled words.now) place ≡ Some file) × IsFile file) }
    ensures here { OnOk result (place < length words.now) }
    ensures none { IfErr result (IsUsage (λ k. (k ≡ place + 1) × ((file : List ℕ)
        → slice_get (spelled words.now) place ≡ Some file → IsFile file → ⊥))) }
{
    match words.get(place) {
        Some(word) if is_file(word.as_str()) => Ok(FileName::of(alloc, word.as_str())?),
        _ => Err(Refusal::Usage(place + 1)),
    }
}

/// No word stands at this place or behind it.
fn need_end(words: &[String], place: usize) -> Result<(), Refusal>
    requires near { place ≤ length words.now }

    ensures end { OnOk result (drop place (spelled words.now) ≡ []) }
    ensures more { IfErr result (IsUsage (λ k. (k ≡ place + 1) × (place < length words.now))) }
{
    if words.len() > place {
        return Err(Refusal::Usage(place + 1));
    }
    Ok(())
}

/// The ring that the words behind the first ask for.
fn read_ring(alloc: Global, words: &[String]) -> Result<Ring, Refusal>
    requires some { 0 < length words.now }

    ensures accepted { IfOk result (λ ring. AreRing ring (drop 1 (spelled words.now))) }
    ensures refused { IfErr result (IsUsage (IsRefusedFrom IsRing (spelled words.now) 1)) }
{
    let relays = need_number(alloc, words, 1, 1, 256)?;
    let until = need_number(alloc, words, 2, 0, LATEST)?;
    need_end(words, 3)?;
    Ok(Ring {
        relays: relays as u32,
        until: Time(until),
    })
}

/// The number of agents of the storm that the words behind the first ask for.
fn read_storm(alloc: Global, words: &[String]) -> Result<u32, Refusal>
    requires some { 0 < length words.now }

    ensures accepted { IfOk result (λ agents. AreStorm agents (drop 1 (spelled words.now))) }
    ensures refused { IfErr result (IsUsage (IsRefusedFrom IsStorm (spelled words.now) 1)) }
{
    let agents = need_number(alloc, words, 1, 1, u64::from(MOST_AGENTS))?;
    need_end(words, 2)?;
    Ok(agents as u32)
}

/// The one file that the words behind the first name.
fn read_check(alloc: Global, words: &[String]) -> Result<FileName, Refusal>
    requires some { 0 < length words.now }

    ensures accepted { IfOk result (λ file. AreFile file (drop 1 (spelled words.now))) }
    ensures refused { IfErr result (IsUsage (IsRefusedFrom IsOneFile (spelled words.now) 1)) }
{
    let file = need_file(alloc, words, 1)?;
    need_end(words, 2)?;
    Ok(file)
}

/// Whether the word of this place begins an option that is free.
fn is_free_until(words: &[String], place: usize, options: Options) -> bool
    ensures { IsTrue result ↔ ((slice_get (spelled words.now) place ≡ Some (codes "--until"))
        × (options.until ≡ None)) }
{
    is_word(words, place, b"--until") && options.until.is_none()
}

/// The detail that the word of this place asks for.
fn detail_at(words: &[String], place: usize) -> Option<Detail>
    ensures some { IfSome result
        (λ d. slice_get (spelled words.now) place ≡ Some (detail_word d)) }
    ensures none { result ≡ None → (d : Detail)
        → slice_get (spelled words.now) place ≡ Some (detail_word d) → ⊥ }
{
    if is_word(words, place, b"--trace") {
        return Some(Detail::Trace);
    }
    if is_word(words, place, b"--stats") {
        return Some(Detail::Stats);
    }
    if is_word(words, place, b"--dump") {
        return Some(Detail::Dump);
    }
    None
}

/// The same where it is free.
fn free_detail(words: &[String], place: usize, options: Options) -> Option<Detail>
    ensures some { IfSome result (λ d. (has_detail options d ≡ false)
        × (slice_get (spelled words.now) place ≡ Some (detail_word d))) }
    ensures none { result ≡ None → (d : Detail)
        → slice_get (spelled words.now) place ≡ Some (detail_word d)
        → has_detail options d ≡ false → ⊥ }
{
    let detail = detail_at(words, place)?;
    if options.has(detail) {
        return None;
    }
    Some(detail)
}

/// The options that the words from a place on ask for beside those that were set.
fn read_options(
    alloc: Global,
    words: &[String],
    place: usize,
    options: Options,
) -> Result<Options, Refusal>
    requires near { place ≤ length words.now }

    ensures accepted { IfOk result
        (λ after. AreSettings options after (drop place (spelled words.now))) }
    ensures refused { IfErr result
        (IsUsage (IsRefusedFrom (HasOptions options) (spelled words.now) place)) }
{
    if words.len() <= place {
        return Ok(options);
    }
    if is_free_until(words, place, options) {
        let until = need_number(alloc, words, place + 1, 0, LATEST)?;
        return read_options(alloc, words, place + 2, options.with_time(Time(until)));
    }
    if let Some(detail) = free_detail(words, place, options) {
        return read_options(alloc, words, place + 1, options.with(detail));
    }
    Err(Refusal::Usage(place + 1))
}

/// A file, and what a run of it is to do.
#[derive(Drop)]
struct FileRun {
    file: FileName,
    options: Options,
}

/// The file and the options that the words behind the first name.
fn read_run(alloc: Global, words: &[String]) -> Result<FileRun, Refusal>
    requires some { 0 < length words.now }

    ensures accepted { IfOk result
        (λ run. AreFileAndOptions run.file run.options (drop 1 (spelled words.now))) }
    ensures refused { IfErr result
        (IsUsage (IsRefusedFrom IsFileAndOptions (spelled words.now) 1)) }
{
    let file = need_file(alloc, words, 1)?;
    let options = read_options(alloc, words, 2, Options::NONE)?;
    Ok(FileRun { file, options })
}

/// The word of this place is this one.
fn need_word(words: &[String], place: usize, text: &[u8]) -> Result<(), Refusal>
    requires near { place ≤ length words.now }

    ensures some { OnOk result (slice_get (spelled words.now) place ≡ Some text.now) }
    ensures here { OnOk result (place < length words.now) }
    ensures none { IfErr result (IsUsage (λ k. (k ≡ place + 1)
        × (slice_get (spelled words.now) place ≢ Some text.now))) }
{
    if is_word(words, place, text) {
        return Ok(());
    }
    Err(Refusal::Usage(place + 1))
}

/// The name of this place, which is any word.
fn need_name(alloc: Global, words: &[String], place: usize) -> Result<Body, Refusal>
    requires near { place ≤ length words.now }

    ensures some { IfOk result (λ name. slice_get (spelled words.now) place ≡ Some name) }
    ensures here { OnOk result (place < length words.now) }
    ensures none { IfErr result (IsUsage (λ k. (k ≡ place + 1) × (length words.now ≤ place))) }
{
    match words.get(place) {
        Some(word) => Ok(Body::of(Vec::from_slice(alloc, word.as_bytes())?)),
        None => Err(Refusal::Usage(place + 1)),
    }
}

/// The question without names that the word of this place asks.
fn whole_question(words: &[String], place: usize) -> Option<Question>
    ensures some { IfSome result (λ q. (question_names q ≡ [])
        × (slice_get (spelled words.now) place ≡ Some (question_word q))) }
    ensures none { result ≡ None → (q : Question) → question_names q ≡ []
        → slice_get (spelled words.now) place ≡ Some (question_word q) → ⊥ }
{
    if is_word(words, place, b"now") {
        return Some(Question::Now);
    }
    if is_word(words, place, b"parts") {
        return Some(Question::Parts);
    }
    if is_word(words, place, b"buffers") {
        return Some(Question::Buffers);
    }
    if is_word(words, place, b"progress") {
        return Some(Question::Progress);
    }
    if is_word(words, place, b"stuck") {
        return Some(Question::Stuck);
    }
    None
}

/// The question about a part, whose name stands behind the word `part`.
fn part_question(alloc: Global, words: &[String]) -> Result<Question, Refusal>
    requires word { slice_get (spelled words.now) 4 ≡ Some (codes "part") }
    requires long { 4 < length words.now }

    ensures accepted { IfOk result (λ q. drop 4 (spelled words.now) ≡ question_words q) }
    ensures refused { IfErr result (IsUsage (IsRefusedFrom IsQuestion (spelled words.now) 4)) }
{
    let part = need_name(alloc, words, 5)?;
    need_end(words, 6)?;
    Ok(Question::Part(part))
}

/// The question about a field, whose name stands behind that of its part and the word `field`.
fn field_question(alloc: Global, words: &[String]) -> Result<Question, Refusal>
    requires word { slice_get (spelled words.now) 4 ≡ Some (codes "field") }
    requires long { 4 < length words.now }

    ensures accepted { IfOk result (λ q. drop 4 (spelled words.now) ≡ question_words q) }
    ensures refused { IfErr result (IsUsage (IsRefusedFrom IsQuestion (spelled words.now) 4)) }
{
    let part = need_name(alloc, words, 5)?;
    let field = need_name(alloc, words, 6)?;
    need_end(words, 7)?;
    Ok(Question::Field(part, field))
}

/// The question that the words from the fifth on ask.
fn read_question(alloc: Global, words: &[String]) -> Result<Question, Refusal>
    requires near { 4 ≤ length words.now }

    ensures accepted { IfOk result (λ q. drop 4 (spelled words.now) ≡ question_words q) }
    ensures refused { IfErr result (IsUsage (IsRefusedFrom IsQuestion (spelled words.now) 4)) }
{
    if is_word(words, 4, b"part") {
        return part_question(alloc, words);
    }
    if is_word(words, 4, b"field") {
        return field_question(alloc, words);
    }
    match whole_question(words, 4) {
        Some(question) => {
            need_end(words, 5)?;
            Ok(question)
        }
        None => Err(Refusal::Usage(5)),
    }
}

/// A file, the time up to which its machine is run, and what is asked about it then.
#[derive(Drop)]
struct FileShow {
    file: FileName,
    at: Time,
    question: Question,
}

/// The file, the time and the question that the words behind the first name.
fn read_show(alloc: Global, words: &[String]) -> Result<FileShow, Refusal>
    requires some { 0 < length words.now }

    ensures accepted { IfOk result
        (λ show. AreShow show.file show.at show.question (drop 1 (spelled words.now))) }
    ensures refused { IfErr result (IsUsage (IsRefusedFrom IsShow (spelled words.now) 1)) }
{
    let file = need_file(alloc, words, 1)?;
    need_word(words, 2, b"--at")?;
    let at = need_number(alloc, words, 3, 0, LATEST)?;
    let question = read_question(alloc, words)?;
    Ok(FileShow {
        file,
        at: Time(at),
        question,
    })
}

/// The command that the words ask for. Words that are refused are named by the least number K such that no accepted list has the
/// same first K words.
pub fn read_words(alloc: Global, words: &[String]) -> Result<Command, Refusal>
    ensures accepted { IfOk result (λ command. Accepts (spelled words.now) command) }
    ensures refused { IfErr result (IsUsage (RefusedAt (spelled words.now))) }
{
    if is_word(words, 0, b"ring") {
        return Ok(Command::Ring(read_ring(alloc, words)?));
    }
    if is_word(words, 0, b"check") {
        return Ok(Command::Check(read_check(alloc, words)?));
    }
    if is_word(words, 0, b"run") {
        let FileRun { file, options } = read_run(alloc, words)?;
        return Ok(Command::Run(file, options));
    }
    if is_word(words, 0, b"slow") {
        let FileRun { file, options } = read_run(alloc, words)?;
        return Ok(Command::Slow(file, options));
    }
    if is_word(words, 0, b"show") {
        let FileShow { file, at, question } = read_show(alloc, words)?;
        return Ok(Command::Show(file, at, question));
    }
    if is_word(words, 0, b"storm") {
        return Ok(Command::Storm(read_storm(alloc, words)?));
    }
    Err(Refusal::Usage(1))
}
