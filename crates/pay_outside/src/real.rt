// Real files and standard output, as a shelf and a sink.
ghost use Rattle.std.specs.Prelude.{◌≡◌, ◌<◌, ◌≤◌, length, None, IfOk, IfSome, OnErr, take, vec_len};
ghost use Rattle.pay_outside.specs.Counts.{Rose, faults_after, overlong_after, put_faults_after};

use crate::shelf::{Shelf, ShelfFault, count_answer};
use crate::sink::{Sink, SinkFault};
use std::alloc::Global;
use std::io::{ErrorKind, Read};
use std::marker::Model;
use std::rt::Files;
use std::{fs, io};

/// A shelf of real files, named by their paths. It tells neither bytes nor loads, and every name may be asked for.
#[derive(Drop)]
pub struct FileShelf<'r, R> {
    rt: &'r R,
    faults: u64,
    overlong: u64,
}

impl<'r, R> Model for FileShelf<'r, R> {
    ghost use Rattle.pay_outside.specs.Real.{FileCounts};

    ghost Value = { FileCounts };

    ghost view = { λ s. record { faults = s.faults; overlong = s.overlong } };
}

impl<'r, R: Files> FileShelf<'r, R> {
    /// A shelf of the files that `rt` opens.
    pub fn new(rt: &'r R) -> FileShelf<'r, R>
        ensures { result ≡ record { faults = 0; overlong = 0 } }
    {
        FileShelf {
            rt,
            faults: 0,
            overlong: 0,
        }
    }
}

impl<R: Files> Shelf for FileShelf<'_, R> {
    ghost bytes = { λ _ _. None };

    ghost may_ask = { λ _ _. Unit {0} };

    ghost loads = { λ _. None };

    ghost faults = { λ shelf. shelf.faults };

    ghost overlong = { λ shelf. shelf.overlong };

    ghost untold_is_open = { λ _ _ _ _ _. tt };

    fn load(&mut self, alloc: Global, name: &str, most: usize) -> Result<Vec<u8>, ShelfFault>
        ensures within { IfOk result (λ v. vec_len v ≤ most) }
        ensures failed { result ≡ Err ShelfFault.Failed → Rose self.old.faults self.new.faults }
        ensures too_long { result ≡ Err ShelfFault.TooLong → Rose self.old.overlong self.new.overlong }
        ensures faults { self.new.faults ≡ faults_after result self.old.faults }
        ensures overlong { self.new.overlong ≡ overlong_after result self.old.overlong }
        ensures faults_grow { self.old.faults ≤ self.new.faults }
        ensures overlong_grow { self.old.overlong ≤ self.new.overlong }
    {
        let answer = read_file(self.rt, alloc, name, most);
        count_answer(&answer, &mut self.faults, &mut self.overlong);
        answer
    }
}

fn read_file<R: Files>(
    rt: &R,
    alloc: Global,
    name: &str,
    most: usize,
) -> Result<Vec<u8>, ShelfFault>
    ensures { IfOk result (λ v. vec_len v ≤ most) }
{
    let file = fs::open(rt, name).map_err(|_| ShelfFault::Failed)?;
    read_within(file, alloc, most)
}

// The bytes up to the end, of which there are at most `most`. It reads no more than one byte past those.
fn read_within<F: Read + Drop>(file: F, alloc: Global, most: usize) -> Result<Vec<u8>, ShelfFault>
    ensures within { IfOk result (λ v. vec_len v ≤ most) }
    ensures exact { IfSome (F.remaining file) (λ b. IfOk result (λ v. v.items ≡ b)) }
    ensures over { IfSome (F.remaining file) (λ b. result ≡ Err ShelfFault.TooLong → most < length b) }
{
    let limit = (most as u64).saturating_add(1);
    match read_up_to(file, alloc, limit) {
        Ok(bytes) if bytes.len() <= most => Ok(bytes),
        Ok(_) => Err(ShelfFault::TooLong),
        Err(error) if error.kind() == ErrorKind::OutOfMemory => Err(ShelfFault::NoMemory),
        Err(_) => Err(ShelfFault::Failed),
    }
}

// The bytes up to the end or to the limit. A read that gives none is the end.
fn read_up_to<F: Read + Drop>(file: F, alloc: Global, limit: u64) -> io::Result<Vec<u8>>
    ensures { IfOk result (λ v. IfSome (F.remaining file) (λ b. v.items ≡ take limit b)) }
{
    let mut bytes = Vec::new(alloc);
    file.take(limit).read_to_end(&mut bytes)?;
    Ok(bytes)
}

/// Standard output. It doesn't tell what it took, and a write that takes nothing of a piece is a fault.
#[derive(Drop)]
pub struct StdSink<'r, R> {
    rt: &'r R,
    faults: u64,
}

impl<'r, R> Model for StdSink<'r, R> {
    ghost use Rattle.std.specs.Prelude.{ℕ};

    ghost Value = { ℕ };

    ghost view = { λ s. s.faults };
}

impl<'r, R: Print> StdSink<'r, R> {
    /// A sink that `rt` prints.
    pub fn new(rt: &'r R) -> StdSink<'r, R>
        ensures { result ≡ 0 }
    {
        StdSink { rt, faults: 0 }
    }
}

impl<R: Print> Sink for StdSink<'_, R> {
    ghost taken = { λ _. None };

    ghost faults = { λ sink. sink };

    fn put(&mut self, piece: &[u8]) -> Result<usize, SinkFault>
        ensures count { IfOk result (λ n. n ≤ length piece.now) }
        ensures progress { 0 < length piece.now → IfOk result (λ n. 0 < n) }
        ensures empty { length piece.now ≡ 0 → result ≡ Ok 0 }
        ensures cause { OnErr result (Rose self.old self.new) }
        ensures faults { self.new ≡ put_faults_after result self.old }
        ensures faults_grow { self.old ≤ self.new }
    {
        if piece.is_empty() {
            return Ok(0);
        }
        match write_some(self.rt, piece) {
            Some(count) if count > 0 => Ok(count),
            _ => {
                self.faults = self.faults.saturating_add(1);
                Err(SinkFault::Failed)
            }
        }
    }
}

// One write, tried again where a signal interrupts it. It gives how many bytes were taken, and None where it fails.
fn write_some<R: Print>(rt: &R, piece: &[u8]) -> Option<usize>
    ensures { IfSome result (λ n. n ≤ length piece.now) }
{
    for _ in 0..u64::MAX {
        match rt.write_some(piece) {
            Err(error) if error.kind() == ErrorKind::Interrupted => {}
            outcome => return outcome.ok(),
        }
    }
    None
}
