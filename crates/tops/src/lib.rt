// The reachable stack tops of a table.
#![tactic(auto)]

ghost use Rattle.std.specs.Prelude.{◌≡◌, suc, ◌*◌, ◌<◌, ◌^◌, length, sum, sum_by, get_or, ℕ, IfOk, IfErr};
ghost use Rattle.std.specs.Int.Count.{ones_in};
ghost use Rattle.limits.specs.Limits.{standard, widest};
ghost use Rattle.refusals.specs.Refusals.{number_of};
ghost use Rattle.table_spec.specs.Reading.{Readable, read_number, starts_of};
ghost use Rattle.table_spec.specs.File.{records, table_of};
ghost use Rattle.table_view.specs.Sections.{HasRead};
ghost use Rattle.tops_spec.specs.Tops.{add, rounds, top_words, top_count, tops_of, TopsSays};
ghost use Rattle.tops_spec.specs.Demands.{TopsExact};
ghost use Rattle.tops.specs.Steps.{StateRecords, StateSections, Small, table_in, width_of, step_by, by_records, tops_found, examined_of, examination_of};

use limits::Limits;
use refusals::Refusal;
use table_spec::Starts;
use table_view::Sections;
use tops_spec::TopWords;

mod initial;

pub use initial::start_words;

// A table that was read, with its tops: what the other operations on a table go on with. The bytes are readable, and these are their section starts and tops.
#[derive(Clone, Copy, Debug)]
pub struct Examined<'a> {
    pub bytes: &'a [u8],
    pub starts: Starts,
    pub words: [u64; 40],
    pub found: u32,
    ghost bytes_fit: { (i : ℕ) → get_or bytes.now i 0 < 256 },
    ghost readable: { Readable widest bytes.now },
    ghost starts_known: { starts ≡ starts_of bytes.now },
    ghost words_known: { words ≡ top_words (table_of bytes.now) },
    ghost found_known: { found ≡ top_count (table_of bytes.now) },
}

// The kinds of records.
#[derive(Clone, Copy)]
enum Kind {
    Internal,
    Call,
    Return,
}

// Word q gains the tops of w.
pub fn add(words: &mut [u64], q: usize, w: u64)
    requires { q < length words.old }
    ensures { words.new ≡ add words.old q w }
{
    words[q] |= w;
}

// The bytes of a record.
fn width_of(kind: Kind) -> usize
    ensures { result ≡ width_of kind }
{
    match kind {
        Kind::Internal => 3,
        Kind::Call => 3,
        Kind::Return => 4,
    }
}

// By an internal (q, a, q') the tops of q are tops of q'; by a call (q, a, q') the state q is one, if q has a top; by a live return (q, a, s, q')
// the tops of s are.
fn step(kind: Kind, from: usize, under: usize, to: usize, words: &mut [u64])
    requires { (from < 40) × (under < 40) × (to < 40) × (length words.old ≡ 40) }
    ensures { words.new ≡ step_by kind words.old from under to }
{
    match kind {
        Kind::Internal => {
            let gained = words[from];
            add(words, to, gained);
        }
        Kind::Call => {
            if words[from] != 0 {
                add(words, to, bits::bit(from));
            }
        }
        Kind::Return => {
            if bits::has_bit(words[from], under) {
                let gained = words[under];
                add(words, to, gained);
            }
        }
    }
}

// The records of a section, in file order.
fn by_records(kind: Kind, section: &[u8], words: &mut [u64])
    requires { StateRecords (width_of kind) 40 section.now × (length words.old ≡ 40) }
    ensures { words.new ≡ by_records kind (records (width_of kind) section.now) words.old }
{
    let width = width_of(kind);
    'records: for fields in section.chunks_exact(width) {
        let from = usize::from(fields[0]);
        let under = usize::from(fields[2]);
        let to = usize::from(fields[width - 1]);
        step(kind, from, under, to, words);
    }
}

// The sum of all words.
fn sum_of(words: &[u64]) -> u64
    requires { sum words.now < 2 ^ 64 }
    ensures { result ≡ sum words.now }
{
    words.iter().sum()
}

// All records pass until a round changes nothing: words only gain tops, so their sum tells. So many rounds are enough (tops_spec/proofs/Exact).
fn fixpoint(sections: &Sections<'_>, words: &mut [u64])
    requires { StateSections sections.now × Small words.old }
    ensures { words.new
        ≡ rounds (suc (length sections.now.states.now * suc (length sections.now.states.now)))
        (table_in sections.now) words.old }
{
    let n = sections.states.len();
    let mut sum = sum_of(words);
    'rounds: for round in 0..n * (n + 1) + 1 {
        by_records(Kind::Internal, sections.internals, words);
        by_records(Kind::Call, sections.calls, words);
        by_records(Kind::Return, sections.returns, words);
        let new = sum_of(words);
        if new == sum {
            return;
        }
        sum = new;
    }
}

// The top words of the table with these sections.
fn words_of(sections: &Sections<'_>, words: &mut [u64])
    requires { StateSections sections.now × (length words.old ≡ 40) }
    ensures { words.new ≡ top_words (table_in sections.now) }
{
    start_words(sections.states, words);
    fixpoint(sections, words);
}

// The number of tops in a word: its ones.
fn tops_in(word: u64) -> u32
    ensures { result ≡ ones_in 64 word }
{
    word.count_ones()
}

// The number of tops in words.
fn count_tops(words: &[u64]) -> u32
    requires { sum_by (ones_in 64) words.now < 2 ^ 32 }
    ensures { result ≡ sum_by (ones_in 64) words.now }
{
    let mut found: u32 = 0;
    'words: for word in words {
        found += tops_in(*word);
    }
    found
}

// The top words of the table with these sections, and the number of tops.
fn tops_of(sections: &Sections<'_>, words: &mut [u64]) -> u32
    requires { StateSections sections.now × (length words.old ≡ 40) }
    ensures { record { words = words.new; found = result } ≡ tops_found (table_in sections.now) }
{
    words_of(sections, words);
    count_tops(&words[..sections.states.len()])
}

// The tops of a table that was read, into the words that are lent: its sections are handed on as parts of the file.
pub fn tops_read(table: &[u8], starts: Starts, words: &mut [u64]) -> u32
    requires { HasRead table.now starts × (length words.old ≡ 40) }
    ensures { record { words = words.new; found = result } ≡ tops_found (table_of table.now) }
{
    tops_of(&table_view::sections_of(table, starts), words)
}

// A table that was read, with its tops, which are worked out.
pub fn examine_read<'a>(table: &'a [u8], starts: Starts) -> Examined<'a>
    requires { HasRead table.now starts }
    ensures { result.bytes ≡ table.entry }
{
    let mut words = [0u64; 40];
    let found = tops_read(table, starts, &mut words);
    Examined {
        bytes: table,
        starts,
        words,
        found,
    }
}

// A table that was read, with its tops, which are known: nothing is worked out but their number.
pub fn examined_known<'a>(table: &'a [u8], starts: Starts, words: &[u64]) -> Examined<'a>
    requires { HasRead table.now starts × (words.now ≡ top_words (table_of table.now)) }
    ensures { result.bytes ≡ table.entry }
{
    let mut handed = [0u64; 40];
    handed.copy_from_slice(words);
    let found = count_tops(&handed);
    Examined {
        bytes: table,
        starts,
        words: handed,
        found,
    }
}

// Reads a table at limits and works out its tops.
pub fn examine<'a>(limits: Limits, table: &'a [u8]) -> Result<Examined<'a>, Refusal>
    ensures answers { examination_of (λ e. e.starts) (λ e. e.words) (λ e. e.found) result ≡ examined_of limits table.now }
    ensures ok { IfOk result (λ e. (e.bytes ≡ table.entry) × Readable limits table.now) }
    ensures err { IfErr result (λ r. read_number limits table.now ≡ number_of r) }
{
    let starts = read::read_within(limits, table)?;
    Ok(examine_read(table, starts))
}

// The reachable tops of a table that is read at limits.
pub fn tops_within(limits: Limits, table: &[u8]) -> Result<TopWords, Refusal>
    ensures answers { result ≡ tops_of limits table.now }
    ensures exact { TopsExact limits table.now result }
    ensures number { TopsSays limits table.now result }
{
    let examined = examine(limits, table)?;
    let words = examined.words;
    Ok(TopWords {
        words,
        found: examined.found,
    })
}

// The reachable tops of a table, at the limits of a caller that gives none.
pub fn tops(table: &[u8]) -> Result<TopWords, Refusal>
    ensures answers { result ≡ tops_of standard table.now }
    ensures exact { TopsExact standard table.now result }
    ensures number { TopsSays standard table.now result }
{
    tops_within(limits::standard(), table)
}
