//! A report that keeps the rules, which is the one that a text writes, if there is one.

ghost use Rattle.direction_set.specs.DirectionTable.{HasTable};
ghost use Rattle.level_table.specs.declared.level.Level.{Level as ALevel};
ghost use Rattle.level_table.specs.Levels.{IsSmall, level_at};
ghost use Rattle.pay_frac.specs.Ratio.{IsLowest, Ratio};
ghost use Rattle.pay_frac.specs.Spelling.{digit_count};
ghost use Rattle.report_lines.specs.Spelled.{ratio_word};
ghost use Rattle.report_text.specs.Reading.{BeginWithSupports, BeginsWithHead, BeginsWithSupport, BeginsWithVerdict, HasFractions, IsHeadOf, IsPart, KeepsHead, counts_words, levels_words, ratio_at, sizes_words, status_words, stop_words};
ghost use Rattle.report_text.specs.ReportText.{AreDiscountWords, AreFractionWords, IsFraction, IsPrintable, IsReportText, level_word, reached_word, status_word};
ghost use Rattle.report_text.specs.Rules.{Agrees, AreDiscounts, AreLevels, AreSameSupports, AreSizes, AreSupports, IsCommon, IsDiscount, IsSamePoint, IsSameSupport, IsSameVerdict, IsShortPoint, IsShortSupport, IsShortValue, IsStop, KeepsRules, KeepsVerdict};
ghost use Rattle.game_model.specs.SelfGeneration.{part as part_of};
ghost use Rattle.lp_core.specs.declared.Point.{Point as APoint};
ghost use Rattle.report_text.specs.declared.rules.Sizes.{Sizes as ASizes};
ghost use Rattle.set_operator.specs.declared.row.Support.{Support as ASupport};
ghost use Rattle.set_operator.specs.declared.row.Verdict.{Verdict as AVerdict};
ghost use Rattle.report_text.specs.declared.report.Report.{Report as AReport};
ghost use Rattle.set_operator.specs.declared.row.Verdict.TheVariants.{Unsupported};
ghost use Rattle.std.specs.Int.RustNames.{unsigned_abs};
ghost use Rattle.std.specs.Int.{◌∣◌};
ghost use Rattle.std.specs.Prelude.{◌≡◌, ℕ, ◌+◌, ◌*◌, ◌^◌, ◌<◌, ◌≤◌, ◌++◌, ◌↔◌, [], ◌∷◌, ◌*ℤ◌, ◌≤ℤ◌, All, IfOk, IfSome, IsTrue, List, Option, Some, codes, drop, length, pos, slice_index_or, ℤ};

use crate::noted::notes;
use crate::report::Report;
use crate::rules::{MOST_PLAYERS, Sizes};
use direction_set::Directions;
use game_model::List;
use level_table::{Level, LevelTable};
use lp_core::Point;
use pay_frac::{Frac, lcm};
use report_lines::Words;
use set_operator::{Support, Verdict};
use std::alloc::{AllocError, Global};

/// The numbers before the rows.
#[derive(Drop)]
struct Head {
    settled: bool,
    sizes: Sizes,
    discounts: List<(u32, u32)>,
    unit: i128,
    slack: u64,
    sweeps: u64,
}

/// A report that keeps the rules. Where the bytes are the text of such a report, it is that one. In the place of
/// each word that doesn't fit stands the least value that does, so the text of the report tells whether all did.
pub(crate) fn nearest(alloc: Global, bytes: &[u8]) -> Result<Report, AllocError>
    ensures keeps { IfOk result KeepsRules }
    ensures printable { IfOk result IsPrintable }
    ensures agrees { IfOk result (λ r. (a : Report) → KeepsRules a → IsReportText a bytes.now → Agrees a r) }
{
    let mut words = Words::of(bytes);
    let head = read_head(alloc, &mut words)?;
    let levels = levels(alloc, &mut words, head.sizes)?;
    let verdict = verdict(alloc, &mut words, head.sizes, head.settled, &levels)?;
    let notes = notes(alloc, &mut words, head.sizes, &levels)?;
    let numbers = List::new(alloc);
    Ok(Report {
        players: head.sizes.players,
        states: head.sizes.states,
        directions: head.sizes.directions,
        discounts: head.discounts,
        unit: head.unit,
        slack: head.slack,
        sweeps: head.sweeps,
        levels,
        verdict,
        notes,
        inner: None,
        numbers,
    })
}

/// What stands before the rows.
fn read_head(alloc: Global, words: &mut Words<'_>) -> Result<Head, AllocError>
    ensures keeps { IfOk result KeepsHead }
    ensures read { IfOk result (λ h. (r : AReport) (rest : List (List ℕ)) → KeepsRules r → BeginsWithHead r words.old rest → IsHeadOf r h × (words.new ≡ rest)) }
{
    let settled = status(words);
    let sizes = sizes(words);
    let discounts = discounts(alloc, words, sizes.players)?;
    let (unit, slack, sweeps) = counts(words);
    Ok(Head {
        settled,
        sizes,
        discounts,
        unit,
        slack,
        sweeps,
    })
}

/// The first two lines.
fn status(words: &mut Words<'_>) -> bool
    ensures { (v : AVerdict) (rest : List (List ℕ)) → words.old ≡ status_words v ++ rest → (IsTrue result ↔ (status_word v ≡ codes "settled")) × (words.new ≡ rest) }
{
    words.skip();
    words.skip();
    words.skip();
    let settled = words.next_is(b"settled");
    words.skip();
    settled
}

/// The numbers of players, states and directions.
fn sizes(words: &mut Words<'_>) -> Sizes
    ensures keeps { AreSizes result }
    ensures read { (z : ASizes) (rest : List (List ℕ)) → AreSizes z → words.old ≡ sizes_words z ++ rest → (result ≡ z) × (words.new ≡ rest) }
{
    words.skip();
    let players = words.small(2, MOST_PLAYERS);
    words.skip();
    let states = words.small(1, 64);
    words.skip();
    let directions = table_size(players, words.small(0, 32));
    Sizes {
        players,
        states,
        directions,
    }
}

/// The number of directions, or the least one of a table where there is none of so many.
fn table_size(players: u32, directions: u32) -> u32
    requires { (2 ≤ players) × (players ≤ 3) }
    ensures keeps { HasTable players result }
    ensures same { HasTable players directions → result ≡ directions }
{
    if Directions::of(players, directions).is_some() {
        directions
    } else {
        2 * players
    }
}

/// The unit, the slack, and how much was run.
fn counts(words: &mut Words<'_>) -> (i128, u64, u64)
    ensures unit { (pos 1 ≤ℤ result.0) × (result.0 ≤ℤ pos (2 ^ 100)) }
    ensures slack { (1 ≤ result.1) × (result.1 ≤ 1000000000) }
    ensures read { (unit : ℤ) (slack sweeps solves : ℕ) (rest : List (List ℕ)) → pos 1 ≤ℤ unit → unit ≤ℤ pos (2 ^ 100) → 1 ≤ slack → slack ≤ 1000000000 → sweeps < 2 ^ 64 → words.old ≡ counts_words unit slack sweeps solves ++ rest → (result ≡ (unit, slack, sweeps)) × (words.new ≡ rest) }
{
    words.skip();
    let unit = words.whole(1, 1 << 100);
    words.skip();
    let slack = words.large(1, 1_000_000_000);
    words.skip();
    let sweeps = words.large(0, u64::MAX);
    words.skip();
    words.skip();
    (unit, slack, sweeps)
}

/// One discount for each player: each that is written, and then the last one again.
fn discounts(
    alloc: Global,
    words: &mut Words<'_>,
    players: u32,
) -> Result<List<(u32, u32)>, AllocError>
    requires { 1 ≤ players }
    ensures keeps { IfOk result (AreDiscounts players) }
    ensures read { IfOk result (λ r. (ds : List (ℕ × ℕ)) (shown rest : List (List ℕ)) → AreDiscounts players ds → AreDiscountWords ds shown → words.old ≡ codes "discount" ∷ (shown ++ codes "unit" ∷ rest) → (r ≡ ds) × (words.new ≡ codes "unit" ∷ rest)) }
{
    words.skip();
    let mut last = first_discount(words.fraction());
    let mut common = i128::from(last.1);
    let mut discounts = List::new(alloc);
    discounts.push(last)?;
    for _kept in 1..players {
        (last, common) = next_discount(words, last, common);
        discounts.push(last)?;
    }
    Ok(discounts)
}

/// The fraction, if it is a discount with a denominator up to 1024, or else 1/2.
fn first_discount(fraction: Frac) -> (u32, u32)
    ensures keeps { IsDiscount result }
    ensures few { result.1 ≤ 1024 }
    ensures read { (d : ℕ × ℕ) → IsDiscount d → d.1 ≤ 1024 → fraction ≡ record { num = pos d.0; den = pos d.1 } → result ≡ d }
{
    let (p, q) = (fraction.num(), fraction.den());
    if 0 < p && p < q && q <= 1024 {
        (p as u32, q as u32)
    } else {
        (1, 2)
    }
}

/// The next discount, or the last one again where the unit comes next; and the common multiple.
fn next_discount(words: &mut Words<'_>, last: (u32, u32), common: i128) -> ((u32, u32), i128)
    requires last { IsDiscount last }
    requires common { (pos 1 ≤ℤ common) × (common ≤ℤ pos 1024) }
    requires divides { last.1 ∣ unsigned_abs common }
    ensures keeps { IsDiscount result.0 }
    ensures common { (pos 1 ≤ℤ result.1) × (result.1 ≤ℤ pos 1024) }
    ensures divides { (result.0.1 ∣ unsigned_abs result.1) × (unsigned_abs common ∣ unsigned_abs result.1) }
    ensures again { slice_index_or words.old 0 [] ≡ codes "unit" → (result ≡ (last, common)) × (words.new ≡ words.old) }
    ensures read { (d : ℕ × ℕ) (m : ℕ) → IsDiscount d → 0 < m → m ≤ 1024 → d.1 ∣ m → unsigned_abs common ∣ m → slice_index_or words.old 0 [] ≡ ratio_word (record { num = pos d.0; den = pos d.1 }) → (result.0 ≡ d) × (unsigned_abs result.1 ∣ m) × (words.new ≡ drop 1 words.old) }
{
    if words.next_is(b"unit") {
        (last, common)
    } else {
        discount(words.fraction(), last, common)
    }
}

/// The fraction, if it is a discount whose denominator has a common multiple up to 1024 with those before it, or
/// else the last one; and the common multiple.
fn discount(fraction: Frac, last: (u32, u32), common: i128) -> ((u32, u32), i128)
    requires last { IsDiscount last }
    requires common { (pos 1 ≤ℤ common) × (common ≤ℤ pos 1024) }
    requires divides { last.1 ∣ unsigned_abs common }
    ensures keeps { IsDiscount result.0 }
    ensures common { (pos 1 ≤ℤ result.1) × (result.1 ≤ℤ pos 1024) }
    ensures divides { (result.0.1 ∣ unsigned_abs result.1) × (unsigned_abs common ∣ unsigned_abs result.1) }
    ensures read { (d : ℕ × ℕ) (m : ℕ) → IsDiscount d → 0 < m → m ≤ 1024 → d.1 ∣ m → unsigned_abs common ∣ m → fraction ≡ record { num = pos d.0; den = pos d.1 } → (result.0 ≡ d) × (unsigned_abs result.1 ∣ m) }
{
    let (p, q) = (fraction.num(), fraction.den());
    if 0 < p && p < q && q <= 1024 {
        match lcm(common, q, 1024) {
            Some(multiple) => ((p as u32, q as u32), multiple),
            None => (last, common),
        }
    } else {
        (last, common)
    }
}

/// One level for each row.
fn levels(alloc: Global, words: &mut Words<'_>, sizes: Sizes) -> Result<LevelTable, AllocError>
    requires { AreSizes sizes }
    ensures keeps { IfOk result (AreLevels sizes) }
    ensures read { IfOk result (λ t. (ls : List ALevel) (rest : List (List ℕ)) → length ls ≡ sizes.states * sizes.directions → All IsSmall ls → words.old ≡ levels_words sizes.directions 0 ls ++ rest → (t.levels ≡ ls) × (words.new ≡ rest)) }
{
    let mut levels = LevelTable::empty(alloc, sizes.states, sizes.directions)?;
    for row in 0..sizes.states * sizes.directions {
        levels.set(row, level(words));
    }
    Ok(levels)
}

/// The level of a row, behind the row's name and place.
fn level(words: &mut Words<'_>) -> Level
    ensures keeps { IsSmall result }
    ensures read { (s k : List ℕ) (l : ALevel) (rest : List (List ℕ)) → IsSmall l → words.old ≡ codes "row" ∷ s ∷ k ∷ level_word l ∷ rest → (result ≡ l) × (words.new ≡ rest) }
{
    words.skip();
    words.skip();
    words.skip();
    level_there(words)
}

/// A level: a whole number, or `empty`.
fn level_there(words: &mut Words<'_>) -> Level
    ensures keeps { IsSmall result }
    ensures read { (l : ALevel) (rest : List (List ℕ)) → IsSmall l → words.old ≡ level_word l ∷ rest → (result ≡ l) × (words.new ≡ rest) }
{
    if words.next_is(b"empty") {
        words.skip();
        Level::Empty
    } else {
        Level::At(words.level())
    }
}

/// The verdict.
fn verdict(
    alloc: Global,
    words: &mut Words<'_>,
    sizes: Sizes,
    settled: bool,
    levels: &LevelTable,
) -> Result<Verdict, AllocError>
    requires sizes { AreSizes sizes }
    requires levels { AreLevels sizes levels.now }
    ensures keeps { IfOk result (KeepsVerdict sizes levels.now) }
    ensures printable { IfOk result HasFractions }
    ensures read { IfOk result (λ r. (v : AVerdict) (rest : List (List ℕ)) → KeepsVerdict sizes levels.now v → (IsTrue settled ↔ (status_word v ≡ codes "settled")) → BeginsWithVerdict sizes v words.old rest → IsSameVerdict sizes.players v r × (words.new ≡ rest)) }
{
    if !settled {
        if let Some(verdict) = stop(words, sizes, levels) {
            return Ok(verdict);
        }
    }
    Ok(Verdict::Supported(supports(alloc, words, sizes, levels)?))
}

/// The row without support, if it has a level.
fn stop(words: &mut Words<'_>, sizes: Sizes, levels: &LevelTable) -> Option<Verdict>
    requires sizes { AreSizes sizes }
    requires levels { AreLevels sizes levels.now }
    ensures keeps { IfSome result (KeepsVerdict sizes levels.now) }
    ensures printable { IfSome result HasFractions }
    ensures read { (row : ℕ) (level : ℤ) (reached : Option Ratio) (rest : List (List ℕ)) → IsStop levels.now row level reached → words.old ≡ stop_words sizes row level reached ++ rest → (result ≡ Some (Unsupported row level reached)) × (words.new ≡ rest) }
{
    words.skip();
    let state = words.small(0, sizes.states - 1);
    let dir = words.small(0, sizes.directions - 1);
    words.skip();
    let reached = reached(words);
    let row = state * sizes.directions + dir;
    match levels.get(row) {
        Level::Empty => None,
        Level::At(level) => Some(Verdict::Unsupported {
            row,
            level,
            reached,
        }),
    }
}

/// The value that is reached: a fraction of at most 36 digits, or `none`.
fn reached(words: &mut Words<'_>) -> Option<Frac>
    ensures keeps { IsShortValue result }
    ensures read { (v : Option Ratio) (rest : List (List ℕ)) → IsShortValue v → words.old ≡ reached_word v ∷ rest → (result ≡ v) × (words.new ≡ rest) }
{
    if words.next_is(b"none") {
        words.skip();
        None
    } else {
        Some(words.fraction())
    }
}

/// One support for each row with a level.
fn supports(
    alloc: Global,
    words: &mut Words<'_>,
    sizes: Sizes,
    levels: &LevelTable,
) -> Result<List<Support>, AllocError>
    requires sizes { AreSizes sizes }
    requires levels { AreLevels sizes levels.now }
    ensures keeps { IfOk result (AreSupports sizes.players 0 levels.now.levels) }
    ensures printable { IfOk result (All (λ s. IsFraction s.point.num s.point.den)) }
    ensures read { IfOk result (λ r. (ss : List ASupport) (rest : List (List ℕ)) → AreSupports sizes.players 0 levels.now.levels ss → BeginWithSupports sizes ss words.old rest → AreSameSupports sizes.players ss r × (words.new ≡ rest)) }
{
    let mut supports = List::new(alloc);
    for row in 0..sizes.states * sizes.directions {
        match levels.get(row) {
            Level::Empty => {}
            Level::At(_) => supports.push(support(words, sizes, row))?,
        }
    }
    Ok(supports)
}

/// The support of a row.
fn support(words: &mut Words<'_>, sizes: Sizes, row: u32) -> Support
    requires { AreSizes sizes }
    ensures keeps { IsShortSupport sizes.players row result }
    ensures printable { IsFraction result.point.num result.point.den }
    ensures read { (s : ASupport) (rest : List (List ℕ)) → IsShortSupport sizes.players row s → BeginsWithSupport sizes s words.old rest → IsSameSupport sizes.players s result × (words.new ≡ rest) }
{
    words.skip();
    words.skip();
    words.skip();
    let profile = words.small(0, 4095);
    let point = point(words, sizes.players);
    Support {
        row,
        profile,
        point,
    }
}

/// A point, one fraction for each player.
fn point(words: &mut Words<'_>, players: u32) -> Point
    requires { players ≤ 3 }
    ensures keeps { IsShortPoint players result }
    ensures printable { IsFraction result.num result.den }
    ensures read { (y : APoint) (parts rest : List (List ℕ)) → IsShortPoint players y → AreFractionWords players (part_of y.num) (λ i. y.den) parts → words.old ≡ parts ++ rest → IsSamePoint players y result × (words.new ≡ rest) }
{
    let mut parts = [zero(); 3];
    let mut den = 1;
    for i in 0..players {
        (parts[i as usize], den) = part(words.fraction(), den);
    }
    joined(&parts, den)
}

/// The point of these parts, over a common multiple of their denominators.
fn joined(parts: &[Frac; 3], den: i128) -> Point
    requires den { (pos 1 ≤ℤ den) × (den ≤ℤ pos (2 ^ 20)) }
    requires parts { (k : ℕ) → k < 3 → IsPart den (ratio_at parts.now k) }
    ensures den { result.den ≡ den }
    ensures parts { (k : ℕ) → k < 3 → part_of result.num k *ℤ (ratio_at parts.now k).den ≡ (ratio_at parts.now k).num *ℤ den }
    ensures small { (k : ℕ) → k < 3 → unsigned_abs (part_of result.num k) ≤ 2 ^ 50 * unsigned_abs den }
    ensures printable { IsFraction result.num result.den }
{
    Point {
        num: [
            over(parts[0], den),
            over(parts[1], den),
            over(parts[2], den),
        ],
        den,
    }
}

/// The fraction, if its size is at most 2^50 and its denominator has a common multiple up to 2^20 with those before
/// it, or else 0; and the common multiple.
fn part(fraction: Frac, common: i128) -> (Frac, i128)
    requires { (pos 1 ≤ℤ common) × (common ≤ℤ pos (2 ^ 20)) }
    ensures lowest { IsLowest result.0 }
    ensures common { (pos 1 ≤ℤ result.1) × (result.1 ≤ℤ pos (2 ^ 20)) }
    ensures divides { (unsigned_abs result.0.den ∣ unsigned_abs result.1) × (unsigned_abs common ∣ unsigned_abs result.1) }
    ensures small { unsigned_abs result.0.num ≤ 2 ^ 50 * unsigned_abs result.0.den }
    ensures read { (m : ℕ) → 0 < m → m ≤ 2 ^ 20 → unsigned_abs fraction.den ∣ m → unsigned_abs common ∣ m → unsigned_abs fraction.num ≤ 2 ^ 50 * unsigned_abs fraction.den → (result.0 ≡ fraction) × (unsigned_abs result.1 ∣ m) }
{
    let (num, den) = (fraction.num(), fraction.den());
    if den <= 1 << 20 && num.unsigned_abs() <= (den as u128) << 50 {
        match lcm(common, den, 1 << 20) {
            Some(multiple) => (fraction, multiple),
            None => (zero(), common),
        }
    } else {
        (zero(), common)
    }
}

/// The numerator of the fraction over a multiple of its denominator.
fn over(fraction: Frac, den: i128) -> i128
    requires den { (pos 1 ≤ℤ den) × (den ≤ℤ pos (2 ^ 20)) }
    requires divides { unsigned_abs fraction.den ∣ unsigned_abs den }
    requires small { unsigned_abs fraction.num ≤ 2 ^ 50 * unsigned_abs fraction.den }
    ensures equal { result *ℤ fraction.den ≡ fraction.num *ℤ den }
    ensures small { unsigned_abs result ≤ 2 ^ 50 * unsigned_abs den }
{
    fraction.num() * (den / fraction.den())
}

fn zero() -> Frac
    ensures value { result ≡ record { num = pos 0; den = pos 1 } }
    ensures lowest { IsLowest result }
{
    Frac::of(0, 1)
}
