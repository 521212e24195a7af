// A shelf and a sink in memory, which fail where they are told to.
ghost use Rattle.std.specs.Prelude.{◌≡◌, ℕ, ◌+◌, ◌<◌, ◌≤◌, ◌++◌, [], List, length, take, Some, IfOk, IfSome, OnErr, vec_len, if◌then◌else◌, option_copied};
ghost use Rattle.pay_outside.specs.Counts.{Rose, counted_up, faults_after, overlong_after, put_faults_after};
ghost use Rattle.pay_outside.specs.Memory.{named_bytes, first_content, told_loads, content_within, load_answer, IsAnswerOrNoMemory, put_answer};

use crate::shelf::{Shelf, ShelfFault, count_answer};
use crate::sink::{Sink, SinkFault};
use std::alloc::{AllocError, Global};
use std::marker::Model;

/// How many bytes a sink in memory has room for.
pub const SINK_ROOM: usize = 16_777_216;

/// A shelf in memory. Its loads are numbered from 0; those that it was told to fail fail, as does a load of a name
/// that isn't there. Of two files with one name the first counts.
#[derive(Drop)]
pub struct MemShelf {
    files: Vec<(String, Vec<u8>)>,
    fail: Vec<u64>,
    loads: u64,
    faults: u64,
    overlong: u64,
}

impl Model for MemShelf {
    ghost use Rattle.pay_outside.specs.Memory.{ShelfView, named_bytes};

    ghost Value = { ShelfView };

    ghost view = { λ s. record { files = named_bytes s.files.items; fail = s.fail.items; loads = s.loads; faults = s.faults; overlong = s.overlong } };
}

impl MemShelf {
    /// A shelf with these files, each a name and its bytes, whose loads with the numbers in `fail` fail.
    pub fn new(files: Vec<(String, Vec<u8>)>, fail: Vec<u64>) -> MemShelf
        ensures { result ≡ record { files = named_bytes files.items; fail = fail.items; loads = 0; faults = 0; overlong = 0 } }
    {
        MemShelf {
            files,
            fail,
            loads: 0,
            faults: 0,
            overlong: 0,
        }
    }
}

impl Shelf for MemShelf {
    ghost bytes = { λ shelf name. first_content shelf.files name };

    ghost may_ask = { λ _ _. Unit {0} };

    ghost loads = { λ shelf. told_loads shelf.loads };

    ghost faults = { λ shelf. shelf.faults };

    ghost overlong = { λ shelf. shelf.overlong };

    ghost untold_is_open = { λ _ _ _ _ _. tt };

    fn load(&mut self, alloc: Global, name: &str, most: usize) -> Result<Vec<u8>, ShelfFault>
        // The answer is exact, but for want of memory.
        ensures answer { IsAnswerOrNoMemory result (load_answer self.old name.now most) }
        ensures within { IfOk result (λ v. vec_len v ≤ most) }
        ensures exact { IfSome (first_content self.old.files name.now) (λ b. IfOk result (λ v. v.items ≡ b)) }

        // Each fault has its cause.
        ensures failed { result ≡ Err ShelfFault.Failed → Rose self.old.faults self.new.faults }
        ensures too_long { result ≡ Err ShelfFault.TooLong → Rose self.old.overlong self.new.overlong }
        ensures over { result ≡ Err ShelfFault.TooLong → IfSome (first_content self.old.files name.now) (λ b. most < length b) }

        // What stays, and what is counted.
        ensures same_files { self.new.files ≡ self.old.files }
        ensures same_fail { self.new.fail ≡ self.old.fail }
        ensures same_bytes { (n : List ℕ) → first_content self.new.files n ≡ first_content self.old.files n }
        ensures load_counted { self.new.loads ≡ counted_up self.old.loads }
        ensures counted { IfSome (told_loads self.new.loads) (λ n. (m : ℕ) × (told_loads self.old.loads ≡ Some m) × (n ≡ m + 1)) }
        ensures faults { self.new.faults ≡ faults_after result self.old.faults }
        ensures overlong { self.new.overlong ≡ overlong_after result self.old.overlong }
        ensures faults_grow { self.old.faults ≤ self.new.faults }
        ensures overlong_grow { self.old.overlong ≤ self.new.overlong }
    {
        let fails = self.fail.contains(&self.loads);
        let answer = load_from(alloc, &self.files, fails, name, most);
        self.loads = self.loads.saturating_add(1);
        count_answer(&answer, &mut self.faults, &mut self.overlong);
        answer
    }
}

// What a load answers, over the files.
fn load_from(
    alloc: Global,
    files: &[(String, Vec<u8>)],
    fails: bool,
    name: &str,
    most: usize,
) -> Result<Vec<u8>, ShelfFault>
    ensures { IsAnswerOrNoMemory result (if fails then Err ShelfFault.Failed else content_within (first_content (named_bytes files.now) name.now) most) }
{
    if fails {
        return Err(ShelfFault::Failed);
    }
    let Some(content) = find_content(files, name) else {
        return Err(ShelfFault::Failed);
    };
    if content.len() > most {
        return Err(ShelfFault::TooLong);
    }
    Vec::from_slice(alloc, content).map_err(|_| ShelfFault::NoMemory)
}

// The content of the first file with this name.
fn find_content<'a>(files: &'a [(String, Vec<u8>)], name: &str) -> Option<&'a [u8]>
    ensures { option_copied result ≡ first_content (named_bytes files.now) name.now }
{
    for file in files {
        if file.0.as_str() == name {
            return Some(file.1.as_slice());
        }
    }
    None
}

/// A sink in memory with room for `SINK_ROOM` bytes. Its puts are numbered from 0, those of an empty piece too. It
/// takes at most so many bytes per put, and the puts that it was told to fail fail, as does a put that finds the
/// room used up.
#[derive(Drop)]
pub struct MemSink {
    bytes: Vec<u8>,
    most_per_put: usize,
    fail: Vec<u64>,
    puts: u64,
    faults: u64,
}

impl Model for MemSink {
    ghost use Rattle.std.specs.Prelude.{◌<◌, ◌≤◌, vec_capacity, vec_len};
    ghost use Rattle.pay_outside.specs.declared.mem.TheConstants.{SINK_ROOM};
    ghost use Rattle.pay_outside.specs.Memory.{SinkView};

    ghost Value = { SinkView };

    ghost view = { λ s. record { taken = s.bytes.items; most_per_put = s.most_per_put; fail = s.fail.items; puts = s.puts; faults = s.faults } };

    ghost invariant = { λ s. (0 < s.most_per_put) × (vec_len s.bytes ≤ SINK_ROOM) × (SINK_ROOM ≤ vec_capacity s.bytes) };
}

impl MemSink {
    /// An empty sink, whose room is made at once. A put takes at most `most_per_put` bytes, and the puts with the
    /// numbers in `fail` fail.
    pub fn new(alloc: Global, most_per_put: usize, fail: Vec<u64>) -> Result<MemSink, AllocError>
        requires { 1 ≤ most_per_put }
        ensures { IfOk result (λ sink. sink ≡ record { taken = []; most_per_put = most_per_put; fail = fail.items; puts = 0; faults = 0 }) }
    {
        Ok(MemSink {
            bytes: Vec::with_capacity(alloc, SINK_ROOM)?,
            most_per_put,
            fail,
            puts: 0,
            faults: 0,
        })
    }

    /// The bytes taken so far.
    pub fn taken(&self) -> &[u8]
        ensures bytes { result.now ≡ self.now.taken }
        ensures room { length result.now ≤ SINK_ROOM }
    {
        self.bytes.as_slice()
    }
}

impl Sink for MemSink {
    ghost taken = { λ sink. Some sink.taken };

    ghost faults = { λ sink. sink.faults };

    fn put(&mut self, piece: &[u8]) -> Result<usize, SinkFault>
        ensures answer { result ≡ put_answer self.old piece.now }
        ensures count { IfOk result (λ n. n ≤ length piece.now) }
        ensures progress { 0 < length piece.now → IfOk result (λ n. 0 < n) }
        ensures empty { length piece.now ≡ 0 → result ≡ Ok 0 }
        ensures took { IfOk result (λ n. self.new.taken ≡ self.old.taken ++ take n piece.now) }
        ensures failed { OnErr result (self.new.taken ≡ self.old.taken) }

        // What stays, and what is counted.
        ensures same_most { self.new.most_per_put ≡ self.old.most_per_put }
        ensures same_fail { self.new.fail ≡ self.old.fail }
        ensures put_counted { self.new.puts ≡ counted_up self.old.puts }
        ensures faults { self.new.faults ≡ put_faults_after result self.old.faults }
        ensures cause { OnErr result (Rose self.old.faults self.new.faults) }
        ensures faults_grow { self.old.faults ≤ self.new.faults }
    {
        let number = self.puts;
        self.puts = self.puts.saturating_add(1);
        if piece.is_empty() {
            return Ok(0);
        }
        let room = SINK_ROOM - self.bytes.len();
        if room == 0 || self.fail.contains(&number) {
            self.faults = self.faults.saturating_add(1);
            return Err(SinkFault::Failed);
        }
        let count = piece.len().min(self.most_per_put).min(room);
        self.bytes.extend_from_slice(&piece[..count]).unwrap();
        Ok(count)
    }
}
