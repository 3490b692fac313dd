// What is printed of the answers.
ghost use Rattle.std.specs.Prelude.{◌≡◌, ◌∷◌, ◌++◌, [], true, All, List, codes, length, count_by, sum_by, IfOk, OnOk};
ghost use Rattle.std.specs.Fmt.{decimal};
ghost use Rattle.std.specs.String.{string_bytes};
ghost use Rattle.command_words.specs.Commands.{store_word};
ghost use Rattle.flash_sim.specs.Device.{Device};
ghost use Rattle.flash_map.specs.declared.area.Area.{Area as area};
ghost use Rattle.image_file.specs.Lawful.{IsImage};
ghost use Rattle.script_lines.specs.Answer.{CanReport};
ghost use Rattle.session.specs.OnMap.{IsServedMap};
ghost use Rattle.image_file.specs.Format.{image_on};
ghost use Rattle.image_jobs.specs.Images.{settings_of};
ghost use Rattle.image_jobs.specs.Inputs.{counts_settings, reported_by};
ghost use Rattle.image_jobs.specs.Jobs.{SaysDamage};
ghost use Rattle.image_jobs.specs.Reading.{MakesOr};
ghost use Rattle.image_jobs.specs.Stages.{stores};
ghost use Rattle.image_jobs.specs.Texts.{texts, last_text, last_pairs, counted, summary, is_set, is_del, is_get, is_fine, is_refused};

use crate::counting::names_left;
use crate::jobs::Report;
use crate::stops::Stop;
use backend_api::Backend;
use command_words::StoreKind;
use flash_map::FlashMap;
use flash_sim::{Bench, NoMemory};
use script_lines::{Answer, Line, Pair, answer_text};
use std::alloc::{AllocError, Global};

// The texts of all answers.
fn all_texts(alloc: Global, answers: &[Answer]) -> Result<Vec<u8>, NoMemory>
    requires { All CanReport answers.now }
    ensures { IfOk result (λ text. text.items ≡ texts answers.now) }
{
    let mut all = Vec::new(alloc);
    for answer in answers {
        let text = answer_text(alloc, answer)?;
        all.extend_from_slice(text.as_slice())?;
    }
    Ok(all)
}

// The text of the last answer.
fn last_text(alloc: Global, answers: &[Answer]) -> Result<Vec<u8>, NoMemory>
    requires { All CanReport answers.now }
    ensures { IfOk result (λ text. text.items ≡ last_text answers.now) }
{
    match answers.last() {
        Some(answer) => answer_text(alloc, answer),
        None => Ok(Vec::new(alloc)),
    }
}

fn store_word(store: StoreKind) -> &'static str
    ensures { result.now ≡ store_word store }
{
    match store {
        StoreKind::Nvs => "nvs",
        StoreKind::Zms => "zms",
        StoreKind::Fcb => "fcb",
    }
}

fn is_set(line: &Line) -> bool
    ensures { result ≡ is_set line.now }
{
    matches!(line, Line::Set { .. })
}

fn is_del(line: &Line) -> bool
    ensures { result ≡ is_del line.now }
{
    matches!(line, Line::Del { .. })
}

fn is_get(line: &Line) -> bool
    ensures { result ≡ is_get line.now }
{
    matches!(line, Line::Get { .. })
}

fn is_fine(answer: &Answer) -> bool
    ensures { result ≡ is_fine answer.now }
{
    matches!(
        answer,
        Answer::Done { .. } | Answer::Value { .. } | Answer::Absent
    )
}

fn is_refused(answer: &Answer) -> bool
    ensures { result ≡ is_refused answer.now }
{
    !is_fine(answer)
}

// The settings in the last answer.
fn last_pairs(answers: &[Answer]) -> &[Pair]
    ensures { result.now ≡ last_pairs answers.now }
{
    match answers.last() {
        Some(Answer::Names { pairs, .. }) => pairs.as_slice(),
        _ => &[],
    }
}

// The bytes of all values. No memory holds 2^64 of them.
fn bytes_in(pairs: &[Pair]) -> Result<u64, NoMemory>
    ensures { IfOk result (λ bytes. bytes ≡ sum_by (λ pair. length pair.value) pairs.now) }
{
    let mut bytes = 0u64;
    for pair in pairs {
        let Some(more) = bytes.checked_add(pair.value.as_slice().len() as u64) else {
            return Err(NoMemory);
        };
        bytes = more;
    }
    Ok(bytes)
}

// How many answers are not fine.
fn refused(answers: &[Answer]) -> usize
    ensures { result ≡ count_by is_refused answers.now }
{
    answers.iter().filter(|answer| is_refused(answer)).count()
}

// Appends a word and a number.
fn add_count(alloc: Global, text: &mut String, word: &str, count: u64) -> Result<(), AllocError>
    ensures { OnOk result
        (string_bytes text.new ≡ string_bytes text.old ++ counted word.now count) }
{
    let more = format!(in alloc; " {word} {count}")?;
    text.push_str(more.as_str())
}

fn sets(lines: &[Line]) -> usize
    ensures { result ≡ count_by is_set lines.now }
{
    lines.iter().filter(|line| is_set(line)).count()
}

fn dels(lines: &[Line]) -> usize
    ensures { result ≡ count_by is_del lines.now }
{
    lines.iter().filter(|line| is_del(line)).count()
}

fn gets(lines: &[Line]) -> usize
    ensures { result ≡ count_by is_get lines.now }
{
    lines.iter().filter(|line| is_get(line)).count()
}

// The counts of lines.
fn line_counts(alloc: Global, text: &mut String, lines: &[Line]) -> Result<(), AllocError>
    ensures { OnOk result (string_bytes text.new ≡ string_bytes text.old
        ++ counted (codes "set") (count_by is_set lines.now)
        ++ counted (codes "del") (count_by is_del lines.now)
        ++ counted (codes "get") (count_by is_get lines.now)) }
{
    add_count(alloc, text, "set", sets(lines) as u64)?;
    add_count(alloc, text, "del", dels(lines) as u64)?;
    add_count(alloc, text, "get", gets(lines) as u64)
}

// The summary of a generated script that left these settings.
fn summary(
    alloc: Global,
    store: StoreKind,
    n: u32,
    lines: &[Line],
    answers: &[Answer],
    pairs: &[Pair],
) -> Result<Vec<u8>, NoMemory>
    ensures { IfOk result
        (λ text. text.items ≡ summary (store_word store) n lines.now answers.now pairs.now) }
{
    let word = store_word(store);
    let bytes = bytes_in(pairs)?;
    let mut text = format!(in alloc; "gen {word} {n}:")?;
    line_counts(alloc, &mut text, lines)?;
    add_count(alloc, &mut text, "names", pairs.len() as u64)?;
    add_count(alloc, &mut text, "bytes", bytes)?;
    add_count(alloc, &mut text, "refused", refused(answers) as u64)?;
    text.push('\n')?;
    Ok(text.into_bytes())
}

/// What is printed of the answers to lines, which left this bench. A summary counts the settings
/// that the bench's image reads as, whether power is on or off.
///
/// # Errors
/// `Refused` if the settings are to be counted, and the image shows damage; `NoMemory`.
pub fn report_text<'a, K: Backend, B: Bench>(
    alloc: Global,
    report: Report,
    lines: &[Line],
    answers: &[Answer],
    areas: &FlashMap,
    bench: &B,
) -> Result<Vec<u8>, Stop<'a>>
    requires texts { All CanReport answers.now }
    requires serves { (areas : List area) (d : Device) → IsImage (image_on areas d)
        → IsServedMap K.serves areas d }
    requires image { IsImage (image_on areas.now (B.device bench.now)) }
    ensures { let k =
        stores K.contents K.room K.chance K.tears K.damage K.rests K.owes K.boot_units in
        let image = image_on areas.now (B.device bench.now) in
        MakesOr (λ text. text.items
        ≡ reported_by report lines.now answers.now (settings_of k areas.now image))
        (λ refusal. (counts_settings report ≡ true) × SaysDamage k areas.now image refusal) result }
{
    match report {
        Report::All => Ok(all_texts(alloc, answers)?),
        Report::Last => Ok(last_text(alloc, answers)?),
        Report::Summary { store, n } => {
            let asked = match names_left::<K, B>(alloc, areas, bench) {
                Ok(asked) => asked,
                Err(stop) => return Err(stop),
            };
            let pairs = last_pairs(asked.as_slice());
            Ok(summary(alloc, store, n, lines, answers, pairs)?)
        }
    }
}
