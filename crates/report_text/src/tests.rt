// Reports of each kind, against their whole texts.
ghost use Rattle.std.specs.Prelude.{◌≡◌, ◌<◌, All, IfOk, length};
ghost use Rattle.report_text.specs.ReportText.{IsFraction, IsPrintable};

use super::*;
use game_model::List;
use level_table::{Item, Items, Level, LevelTable, Note, Notes, Reason, ReasonList};
use lp_core::Point;
use pay_frac::Frac;
use selfgen_check::{Corr, Entry, Lottery};
use set_operator::{Support, Verdict};
use std::alloc::{AllocError, Global};
use std::test::Fail;

const SETTLED: &[u8] =
    b"payoff 1\nstatus settled\nplayers 2\nstates 2\ndirections 4\ndiscount 1/2\nunit 16\nslack 1\nsweeps 5\nsolves 40\nrow 0 0 1\nrow 0 1 -1\nrow 0 2 2\nrow 0 3 -2\nrow 1 0 empty\nrow 1 1 empty\nrow 1 2 empty\nrow 1 3 empty\npoint 0 0 3 1/2 2\npoint 0 1 3 1/2 2\npoint 0 2 3 1/2 2\npoint 0 3 3 1/2 2\nempty 1\nwhy 1 0 successor 1\nwhy 1 1 deviation 1 0 1\nwhy 1 2 farkas level 0 16 1 gain 0 1 -3 2\nend\n";

const SPENT: &[u8] =
    b"payoff 1\nstatus spent\nplayers 2\nstates 1\ndirections 4\ndiscount 1/2\nunit 16\nslack 1\nsweeps 3\nsolves 12\nrow 0 0 48\nrow 0 1 -14\nrow 0 2 48\nrow 0 3 -14\nstop 0 1 -14 -15\nend\n";

const NOTHING: &[u8] =
    b"payoff 1\nstatus spent\nplayers 3\nstates 1\ndirections 2\ndiscount 1/2 2/3 1/2\nunit 1267650600228229401496703205376\nslack 1\nsweeps 0\nsolves 0\nrow 0 0 7\nrow 0 1 -7\nstop 0 1 -7 none\nend\n";

const THREE: &[u8] =
    b"payoff 1\nstatus settled\nplayers 3\nstates 1\ndirections 2\ndiscount 1/2 2/3 1/2\nunit 1267650600228229401496703205376\nslack 1\nsweeps 0\nsolves 0\nrow 0 0 7\nrow 0 1 -7\npoint 0 1 0 1/4 -1/2 3\nend\n";

const WITH_SETS: &[u8] =
    b"payoff 1\nstatus spent\nplayers 2\nstates 1\ndirections 4\ndiscount 1/2\nunit 16\nslack 1\nsweeps 3\nsolves 12\nrow 0 0 48\nrow 0 1 -14\nrow 0 2 48\nrow 0 3 -14\nstop 0 1 -14 -15\nset 0 2\nentry 0 0 1 1 profile 3 lottery 0:1 punish 0 0\nentry 0 1 3/2 -2 profile 0 lottery 0:1 1:9671406556917033397649408 punish 1 0\nend\n";

const NO_ENTRY: &[u8] =
    b"payoff 1\nstatus spent\nplayers 2\nstates 1\ndirections 4\ndiscount 1/2\nunit 16\nslack 1\nsweeps 3\nsolves 12\nrow 0 0 48\nrow 0 1 -14\nrow 0 2 48\nrow 0 3 -14\nstop 0 1 -14 -15\nset 0 0\nend\n";

fn halves(alloc: Global) -> Result<List<(u32, u32)>, AllocError>
    ensures count { IfOk result (λ ds. length ds ≡ 2) }
    ensures positive { IfOk result (All (λ d. 0 < d.1)) }
{
    let mut discounts = List::new(alloc);
    discounts.push((1, 2))?;
    discounts.push((1, 2))?;
    Ok(discounts)
}

/// One of each player, of which two are equal.
fn mixed(alloc: Global) -> Result<List<(u32, u32)>, AllocError>
    ensures count { IfOk result (λ ds. length ds ≡ 3) }
    ensures positive { IfOk result (All (λ d. 0 < d.1)) }
{
    let mut discounts = List::new(alloc);
    discounts.push((1, 2))?;
    discounts.push((2, 3))?;
    discounts.push((1, 2))?;
    Ok(discounts)
}

/// These levels in the first state, and Empty in a second one, if there is one.
fn table(alloc: Global, states: u32, levels: [i64; 4]) -> Result<LevelTable, AllocError>
    requires some { 0 < states }
    requires few { states < 3 }
    ensures states { IfOk result (λ t. t.states ≡ states) }
    ensures directions { IfOk result (λ t. t.directions ≡ 4) }
{
    let mut table = LevelTable::empty(alloc, states, 4)?;
    table.put(0, 0, Level::At(levels[0]));
    table.put(0, 1, Level::At(levels[1]));
    table.put(0, 2, Level::At(levels[2]));
    table.put(0, 3, Level::At(levels[3]));
    Ok(table)
}

/// A state with two directions.
fn pair(alloc: Global) -> Result<LevelTable, AllocError>
    ensures states { IfOk result (λ t. t.states ≡ 1) }
    ensures directions { IfOk result (λ t. t.directions ≡ 2) }
{
    let mut table = LevelTable::empty(alloc, 1, 2)?;
    table.put(0, 0, Level::At(7));
    table.put(0, 1, Level::At(-7));
    Ok(table)
}

fn support(row: u32) -> Support
    ensures row { result.row ≡ row }
    ensures fraction { IsFraction result.point.num result.point.den }
{
    let point = Point {
        num: [1, 4, 0],
        den: 2,
    };
    Support {
        row,
        profile: 3,
        point,
    }
}

fn supports(alloc: Global) -> Result<List<Support>, AllocError>
    ensures { IfOk result (All (λ s. (s.row < 4) × IsFraction s.point.num s.point.den)) }
{
    let mut supports = List::new(alloc);
    supports.push(support(0))?;
    supports.push(support(1))?;
    supports.push(support(2))?;
    supports.push(support(3))?;
    Ok(supports)
}

/// A certificate with a row of each kind, and one with multiplier 0.
fn items() -> Items {
    let mut items = Items::new();
    items.push(Item::Level {
        dir: 0,
        level: 16,
        times: 1,
    });
    items.push(Item::Level {
        dir: 2,
        level: 7,
        times: 0,
    });
    items.push(Item::Gain {
        player: 0,
        strategy: 1,
        level: -3,
        times: 2,
    });
    items
}

/// A note of state 1 with a reason of each kind, and with room for more.
fn notes(alloc: Global) -> Result<Notes, AllocError> {
    let mut reasons = ReasonList::with_room(alloc, 5)?;
    reasons.push(Reason::Successor { state: 1 });
    reasons.push(Reason::Deviation {
        player: 1,
        strategy: 0,
        state: 1,
    });
    reasons.push(Reason::Farkas { items: items() });
    let mut notes = Notes::new(alloc);
    notes.push(Note { state: 1, reasons })?;
    Ok(notes)
}

fn settled(alloc: Global) -> Result<Report, AllocError>
    ensures { IfOk result IsPrintable }
{
    Ok(Report {
        players: 2,
        states: 2,
        directions: 4,
        discounts: halves(alloc)?,
        unit: 16,
        slack: 1,
        sweeps: 5,
        levels: table(alloc, 2, [1, -1, 2, -2])?,
        verdict: Verdict::Supported(supports(alloc)?),
        notes: notes(alloc)?,
        inner: None,
        numbers: List::new(alloc),
    })
}

fn spent(alloc: Global) -> Result<Report, AllocError>
    ensures { IfOk result IsPrintable }
{
    Ok(Report {
        players: 2,
        states: 1,
        directions: 4,
        discounts: halves(alloc)?,
        unit: 16,
        slack: 1,
        sweeps: 3,
        levels: table(alloc, 1, [48, -14, 48, -14])?,
        verdict: Verdict::Unsupported {
            row: 1,
            level: -14,
            reached: Some(Frac::of(-15, 1)),
        },
        notes: Notes::new(alloc),
        inner: None,
        numbers: List::new(alloc),
    })
}

fn lone_support(alloc: Global) -> Result<List<Support>, AllocError>
    ensures { IfOk result (All (λ s. (s.row < 2) × IsFraction s.point.num s.point.den)) }
{
    let point = Point {
        num: [1, -2, 12],
        den: 4,
    };
    let mut supports = List::new(alloc);
    supports.push(Support {
        row: 1,
        profile: 0,
        point,
    })?;
    Ok(supports)
}

/// Three players with different discounts.
fn three(alloc: Global) -> Result<Report, AllocError>
    ensures { IfOk result IsPrintable }
{
    Ok(Report {
        players: 3,
        states: 1,
        directions: 2,
        discounts: mixed(alloc)?,
        unit: 1 << 100,
        slack: 1,
        sweeps: 0,
        levels: pair(alloc)?,
        verdict: Verdict::Supported(lone_support(alloc)?),
        notes: Notes::new(alloc),
        inner: None,
        numbers: List::new(alloc),
    })
}

/// The same, with a row in which nothing is admissible.
fn nothing(alloc: Global) -> Result<Report, AllocError>
    ensures { IfOk result IsPrintable }
{
    Ok(Report {
        players: 3,
        states: 1,
        directions: 2,
        discounts: mixed(alloc)?,
        unit: 1 << 100,
        slack: 1,
        sweeps: 0,
        levels: pair(alloc)?,
        verdict: Verdict::Unsupported {
            row: 1,
            level: -7,
            reached: None,
        },
        notes: Notes::new(alloc),
        inner: None,
        numbers: List::new(alloc),
    })
}

/// An entry with two numbers of punishing entries.
fn entry(
    alloc: Global,
    point: [i64; 3],
    profile: [u32; 2],
    lottery: Lottery,
    punish: [u32; 2],
) -> Result<Entry, AllocError>
    ensures { IfOk result (λ e. length e.point ≡ 2) }
{
    let strategies = pair_of(alloc, profile)?;
    Ok(Entry::new(point, strategies, lottery, pair_of(alloc, punish)?))
}

fn pair_of(alloc: Global, items: [u32; 2]) -> Result<List<u32>, AllocError>
    ensures { IfOk result (λ list. length list ≡ 2) }
{
    let mut list = List::new(alloc);
    list.push(items[0])?;
    list.push(items[1])?;
    Ok(list)
}

/// Two entries, of which the second has a weight that is as large as may be.
fn entries(alloc: Global) -> Result<List<Entry>, AllocError>
    ensures count { IfOk result (λ es. length es ≡ 2) }
    ensures parts { IfOk result (All (λ e. length e.point ≡ 2)) }
{
    let mut first = Lottery::new();
    first.push(0, 1);
    let mut second = Lottery::new();
    second.push(0, 1);
    second.push(1, 1 << 83);
    let mut entries = List::new(alloc);
    entries.push(entry(alloc, [2, 2, 7], [1, 1], first, [0, 0])?)?;
    entries.push(entry(alloc, [3, -4, 7], [0, 0], second, [1, 0])?)?;
    Ok(entries)
}

/// A spent report of one state with this set, in halves.
fn with_set(alloc: Global, entries: List<Entry>, numbers: List<u32>) -> Result<Report, AllocError>
    requires each { length numbers ≡ length entries }
    requires parts { All (λ e. length e.point ≡ 2) entries }
    ensures { IfOk result IsPrintable }
{
    let mut sets = List::new(alloc);
    sets.push(entries)?;
    let mut lists = List::new(alloc);
    lists.push(numbers)?;
    Ok(Report {
        players: 2,
        states: 1,
        directions: 4,
        discounts: halves(alloc)?,
        unit: 16,
        slack: 1,
        sweeps: 3,
        levels: table(alloc, 1, [48, -14, 48, -14])?,
        verdict: Verdict::Unsupported {
            row: 1,
            level: -14,
            reached: Some(Frac::of(-15, 1)),
        },
        notes: Notes::new(alloc),
        inner: Some(Corr::new(2, sets)),
        numbers: lists,
    })
}

#[test]
fn sets_are_printed(rt: HostRuntime) -> Result<(), Fail> {
    let alloc = rt.alloc();
    let report = with_set(alloc, entries(alloc)?, pair_of(alloc, [3, 0])?)?;
    assert!(rt; text_of(alloc, &report)?.as_slice() == WITH_SETS);
    let report = with_set(alloc, List::new(alloc), List::new(alloc))?;
    assert!(rt; text_of(alloc, &report)?.as_slice() == NO_ENTRY);
    Ok(())
}

/// The text of a game in which nothing is an equilibrium, with one right choice of certificates.
const NONE: &[u8] =
    b"payoff 1\nstatus settled\nplayers 2\nstates 1\ndirections 4\ndiscount 1/2\nunit 16\nslack 1\nsweeps 1\nsolves 4\nrow 0 0 empty\nrow 0 1 empty\nrow 0 2 empty\nrow 0 3 empty\nempty 0\nwhy 0 0 farkas level 2 0 1 gain 1 1 16 1\nwhy 0 1 farkas level 0 16 1 gain 0 0 0 1\nwhy 0 2 farkas level 0 16 1 gain 0 1 0 1\nwhy 0 3 farkas level 2 0 1 gain 1 0 16 1\nend\n";

/// The text of the report that is read from a text.
fn again(alloc: Global, text: &[u8]) -> Result<Vec<u8>, ReportFault> {
    let report = read_report(alloc, text)?;
    Ok(text_of(alloc, &report)?)
}

/// The place of the fault of a text, if it has one.
fn fault(alloc: Global, text: &[u8]) -> Option<u64> {
    match read_report(alloc, text) {
        Err(ReportFault::Bad { at }) => Some(at),
        _ => None,
    }
}

/// A text in which the first `old` is replaced, or no text where there is none.
fn replaced(alloc: Global, text: &[u8], old: &[u8], new: &[u8]) -> Result<Vec<u8>, AllocError> {
    let mut bytes = Vec::new(alloc);
    for at in 0..text.len() {
        if text[at..].starts_with(old) {
            bytes.extend_from_slice(&text[..at])?;
            bytes.extend_from_slice(new)?;
            bytes.extend_from_slice(&text[at + old.len()..])?;
            return Ok(bytes);
        }
    }
    Ok(bytes)
}

/// Each text comes out again as it went in: those of runs, and others at the ends of what a report may show.
#[test]
fn reports_are_read(rt: HostRuntime) -> Result<(), Fail> {
    let alloc = rt.alloc();
    for (i, (text, old, new)) in [
        (SETTLED, &b"end\n"[..], &b"end\n"[..]),
        (SPENT, b"end\n", b"end\n"),
        (NONE, b"end\n", b"end\n"),
        (SPENT, b"-15", b"none"),
        (SPENT, b"1/2", b"1/2 1023/1024"),
        (SPENT, b"unit 16", b"unit 1267650600228229401496703205376"),
        (SPENT, b"slack 1", b"slack 1000000000"),
        (
            SPENT,
            b"sweeps 3\nsolves 12",
            b"sweeps 18446744073709551615\nsolves 73786976294838206460",
        ),
        (SPENT, b"48\n", b"1125899906842624\n"),
        (SPENT, b"-15", b"-11111111111111111111111111111/1000000"),
        (SPENT, b"row 0 0 48", b"row 0 0 empty"),
        (SETTLED, b"3 1/2 2", b"4095 -1125899906842624 1/1048576"),
        (
            SETTLED,
            b"why 1 1 deviation 1 0 1\nwhy 1 2 farkas level 0 16 1 gain 0 1 -3 2\n",
            b"",
        ),
        (
            SETTLED,
            b"gain 0 1 -3 2",
            b"level 3 0 1048576 gain 1 15 0 1 gain 0 0 7 1",
        ),
    ]
    .iter()
    .enumerate()
    {
        let text = replaced(alloc, text, old, new)?;
        match again(alloc, text.as_slice()) {
            Ok(same) => assert!(rt; same.as_slice() == text.as_slice(), "text {i}"),
            Err(_) => assert!(rt; false, "text {i}"),
        }
    }
    Ok(())
}

/// Texts of no report, each with one rule broken, and the places of their faults.
#[test]
fn broken_reports_are_refused(rt: HostRuntime) -> Result<(), Fail> {
    let alloc = rt.alloc();
    for (text, old, new, at) in [
        (SPENT, &b"unit 16"[..], &b"unit 016"[..], 67),
        (SPENT, b"end\n", b"", 165),
        (
            SPENT,
            b"row 0 0 48\nrow 0 1 -14\n",
            b"row 0 1 -14\nrow 0 0 48\n",
            169,
        ),
        (SPENT, b"payoff 1", b"payoff 2", 0),
        (SPENT, b"status spent", b"status settled", 171),
        (SPENT, b"players 2", b"players 3", 169),
        (SPENT, b"players 2", b"players +2", 22),
        (SPENT, b"states 1", b"states 0", 169),
        (SPENT, b"states 1", b"states 65", 170),
        (SPENT, b"directions 4", b"directions 6", 169),
        (SPENT, b"1/2", b"2/4", 54),
        (SPENT, b"1/2", b"1/2 1/2", 173),
        (SPENT, b"1/2", b"1/2 1/3 1/5", 177),
        (SPENT, b"1/2", b"1", 167),
        (SPENT, b"1/2", b"0", 167),
        (SPENT, b"1/2", b"1/1025", 172),
        (SPENT, b"1/2", b"1/2 1/513", 175),
        (SPENT, b"unit 16", b"unit 0", 168),
        (
            SPENT,
            b"unit 16",
            b"unit 1267650600228229401496703205377",
            198,
        ),
        (SPENT, b"slack 1", b"slack 0", 169),
        (SPENT, b"slack 1", b"slack 1000000001", 178),
        (SPENT, b"solves 12", b"solves 13", 169),
        (
            SPENT,
            b"sweeps 3\nsolves 12",
            b"sweeps 18446744073709551616\nsolves 73786976294838206464",
            206,
        ),
        (SPENT, b"row 0 0", b"row  0 0", 102),
        (SPENT, b"48\n", b"1125899906842625\n", 183),
        (SPENT, b"-14 -15", b"-13 -15", 169),
        (SPENT, b"stop 0 1", b"stop 0 4", 169),
        (SPENT, b"-15", b"-30/2", 148),
        (SPENT, b"-15", b"1111111111111111111111111111111111111", 148),
        (SPENT, b"stop 0 1 -14 -15\n", b"", 152),
        (SPENT, b"end\n", b"end", 165),
        (SPENT, b"end\n", b"end\n\n", 169),
        (SPENT, b"end\n", b"end\nend\n", 173),
        (SETTLED, b"point 0 0 3 1/2 2\n", b"", 354),
        (SETTLED, b"point 0 0 3", b"point 0 0 4096", 375),
        (SETTLED, b"1/2 2", b"1/1048577 2", 378),
        (SETTLED, b"3 1/2 2", b"3 1125899906842625 2", 385),
        (SETTLED, b"3 1/2 2", b"3 1/2", 370),
        (SETTLED, b"3 1/2 2", b"3", 202),
        (SETTLED, b"empty 1\n", b"empty 0\n", 372),
        (SETTLED, b"end\n", b"empty 1\nend\n", 380),
        (SETTLED, b"end\n", b"set 0 0\nend\n", 380),
        (SETTLED, b"why 1 0", b"why 1 1", 372),
        (SETTLED, b"successor 1", b"successor 2", 372),
        (SETTLED, b"deviation 1 0 1", b"deviation 2 0 1", 372),
        (SETTLED, b"deviation 1 0 1", b"deviation 1 16 1", 373),
        (SETTLED, b"level 0 16 1 gain 0 1 -3 2", b"", 326),
        (SETTLED, b" level 0 16 1 gain 0 1 -3 2", b"", 326),
        (SETTLED, b"level 0 16 1", b"level 4 16 1", 372),
        (SETTLED, b"level 0 16 1", b"level 0 16 0", 372),
        (SETTLED, b"level 0 16 1", b"level 0 16 1048577", 378),
        (
            SETTLED,
            b"level 0 16 1",
            b"level 0 16 1 level 0 16 1 level 0 16 1 level 0 16 1",
            411,
        ),
    ] {
        let text = replaced(alloc, text, old, new)?;
        assert_eq!(rt; fault(alloc, text.as_slice()), Some(at));
    }
    Ok(())
}

#[test]
fn reports_are_printed(rt: HostRuntime) -> Result<(), Fail> {
    let alloc = rt.alloc();
    let text = text_of(alloc, &settled(alloc)?)?;
    assert!(rt; text.as_slice() == SETTLED);
    let text = text_of(alloc, &spent(alloc)?)?;
    assert!(rt; text.as_slice() == SPENT);
    let text = text_of(alloc, &three(alloc)?)?;
    assert!(rt; text.as_slice() == THREE);
    let text = text_of(alloc, &nothing(alloc)?)?;
    assert!(rt; text.as_slice() == NOTHING);
    Ok(())
}
