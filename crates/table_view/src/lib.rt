// A read table as it is passed on: the lent bytes together with the five section starts, and the five sections that these cut.
// Nothing is asked of the starts: bytes that are not there are left out of a section.
#![tactic(auto)]

ghost use Rattle.std.specs.Prelude.{◌≡◌};
ghost use Rattle.std.proofs.Math.Seq.{slice};
ghost use Rattle.table_spec.specs.File.{trailer};
ghost use Rattle.table_view.specs.Sections.{part_of, state_byte};

use table_spec::Starts;

// Which of the five sections.
#[derive(Clone, Copy, Debug, PartialEq, Eq)]
pub enum Section {
    Symbols,
    States,
    Internals,
    Calls,
    Returns,
}

// "the lent bytes together with its five section starts"
#[derive(Clone, Copy)]
pub struct TableView<'a> {
    pub bytes: &'a [u8],
    pub starts: Starts,
}

// The five sections of a read table, as they are handed on: each is a part of the file.
#[derive(Clone, Copy)]
pub struct Sections<'a> {
    pub symbols: &'a [u8],
    pub states: &'a [u8],
    pub internals: &'a [u8],
    pub calls: &'a [u8],
    pub returns: &'a [u8],
}

// The length of the "12-byte trailer".
const TRAILER: usize = 12;

// The bytes from one place up to another, as far as they are there.
fn between<'a>(bytes: &'a [u8], from: usize, to: usize) -> &'a [u8]
    ensures { result.now ≡ slice from to bytes.now }
{
    let length = bytes.len();
    if length <= from {
        return &bytes[length..];
    }
    if to <= from {
        return &bytes[length..];
    }
    if length <= to {
        return &bytes[from..];
    }
    &bytes[from..to]
}

// Where the trailer starts.
fn end_of(bytes: &[u8]) -> usize
    ensures { result ≡ trailer bytes.now }
{
    let length = bytes.len();
    if length < TRAILER {
        return 0;
    }
    length - TRAILER
}

// The part of the bytes that is a section: it ends where the next one begins, the last one at the trailer.
fn part_at<'a>(bytes: &'a [u8], starts: Starts, which: Section) -> &'a [u8]
    ensures { result.now ≡ part_of bytes.now starts which }
{
    match which {
        Section::Symbols => between(bytes, starts.symbols, starts.states),
        Section::States => between(bytes, starts.states, starts.internals),
        Section::Internals => between(bytes, starts.internals, starts.calls),
        Section::Calls => between(bytes, starts.calls, starts.returns),
        Section::Returns => between(bytes, starts.returns, end_of(bytes)),
    }
}

// A state's byte; 0 past the count.
fn state_at(bytes: &[u8], starts: Starts, q: usize) -> u8
    ensures { result ≡ state_byte bytes.now starts q }
{
    let states = part_at(bytes, starts, Section::States);
    if q < states.len() {
        return states[q];
    }
    0
}

// The view of bytes and starts.
pub fn view_of<'a>(bytes: &'a [u8], starts: Starts) -> TableView<'a>
    ensures { (result.bytes ≡ bytes.entry) × (result.starts ≡ starts) }
{
    TableView { bytes, starts }
}

// The part of a view's bytes that is a section.
pub fn view_part<'a>(view: TableView<'a>, which: Section) -> &'a [u8]
    ensures { result.now ≡ part_of view.entry.bytes.now view.entry.starts which }
{
    part_at(view.bytes, view.starts, which)
}

// The byte of a view's state.
pub fn view_state<'a>(view: TableView<'a>, q: usize) -> u8
    ensures { result ≡ state_byte view.entry.bytes.now view.entry.starts q }
{
    state_at(view.bytes, view.starts, q)
}

// The part of a read table that is a section, by its bytes and starts.
pub fn part<'a>(table: &'a [u8], starts: Starts, which: Section) -> &'a [u8]
    ensures { result.now ≡ part_of table.now starts which }
{
    view_part(view_of(table, starts), which)
}

// The sections of a read table, by its bytes and starts.
pub fn sections_of<'a>(table: &'a [u8], starts: Starts) -> Sections<'a>
    ensures symbols { result.symbols.now ≡ part_of table.now starts Section.Symbols }
    ensures states { result.states.now ≡ part_of table.now starts Section.States }
    ensures internals { result.internals.now ≡ part_of table.now starts Section.Internals }
    ensures calls { result.calls.now ≡ part_of table.now starts Section.Calls }
    ensures returns { result.returns.now ≡ part_of table.now starts Section.Returns }
{
    Sections {
        symbols: part(table, starts, Section::Symbols),
        states: part(table, starts, Section::States),
        internals: part(table, starts, Section::Internals),
        calls: part(table, starts, Section::Calls),
        returns: part(table, starts, Section::Returns),
    }
}
