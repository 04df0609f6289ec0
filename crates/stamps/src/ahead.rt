//! A reader whose first bytes are read ahead, and then read again.
ghost use Rattle.std.specs.Prelude.{◌≡◌, ◌<◌, ◌≤◌, ◌++◌, false, [], drop, length, min, take, vec_len, Ok, OnErr, OnOk};
ghost use Rattle.std.specs.Io.KnownBytes.{IsAtEnd, Keeps};
ghost use Rattle.stamps.specs.Ahead.{LongerBy, has_fault, head_of, inner_of, left_of};

use crate::sources::Input;
use crate::watches::Watch;
use std::alloc::{AllocError, Global};
use std::io;
use std::io::Read;

/// The most bytes that are looked at before the first line is written.
pub const MOST_AHEAD: usize = 65_536;

/// A reader, and the bytes that were read ahead of it.
#[derive(Drop)]
pub struct Ahead<R> {
    inner: R,
    alloc: Global,
    head: Vec<u8>,
    served: usize,
    fault: Option<io::Error>,
}

impl<R: Read> Ahead<R> {
    /// A reader of which nothing is read ahead.
    pub fn new(inner: R, alloc: Global) -> Ahead<R>
        ensures left { Keeps (R.remaining inner) (left_of R.remaining result) }
        ensures head { head_of result ≡ [] }
        ensures well { has_fault result ≡ false }
    {
        Ahead {
            inner,
            alloc,
            head: Vec::new(alloc),
            served: 0,
            fault: None,
        }
    }

    /// The reader.
    pub fn inner(&self) -> &R
        ensures { result.now ≡ inner_of self.now }
    {
        &self.inner
    }

    /// The bytes that were read ahead.
    pub fn head(&self) -> &[u8]
        ensures { result.now ≡ head_of self.now }
    {
        if self.served >= self.head.len() {
            return &[];
        }
        &self.head[self.served..]
    }

    /// Whether a read ahead failed.
    pub fn has_fault(&self) -> bool
        ensures { result ≡ has_fault self.now }
    {
        self.fault.is_some()
    }

    // Reads some of the bytes that were read ahead.
    fn read_again(&mut self, buffer: &mut [u8]) -> usize
        requires some { self.old.served < vec_len self.old.head }
        ensures taken { head_of self.old ≡ take result buffer.new ++ head_of self.new }
        ensures bound { result ≤ length buffer.new }
        ensures length { length buffer.new ≡ length buffer.old }
        ensures more { 0 < length buffer.old → 0 < result }
        ensures inner { self.new.inner ≡ self.old.inner }
    {
        let count = copy_front(self.head(), buffer);
        self.served += count;
        count
    }

    // Frees the bytes that were read ahead, all of which were read again.
    fn free(&mut self)
        requires none { vec_len self.old.head ≤ self.old.served }
        ensures before { head_of self.old ≡ [] }
        ensures after { head_of self.new ≡ [] }
        ensures inner { self.new.inner ≡ self.old.inner }
    {
        self.head = Vec::new(self.alloc);
        self.served = 0;
    }

    // Counts no more bytes as read again than were read ahead.
    fn settle(&mut self)
        ensures within { self.new.served ≤ vec_len self.new.head }
        ensures head { head_of self.new ≡ head_of self.old }
        ensures inner { self.new.inner ≡ self.old.inner }
        ensures fault { self.new.fault ≡ self.old.fault }
    {
        if self.served > self.head.len() {
            self.served = self.head.len();
        }
    }

    // Adds bytes to those that were read ahead.
    fn keep(&mut self, bytes: &[u8]) -> Result<(), AllocError>
        requires within { self.old.served ≤ vec_len self.old.head }
        ensures kept { OnOk result (head_of self.new ≡ head_of self.old ++ bytes.now) }
        ensures same { OnErr result (head_of self.new ≡ head_of self.old) }
        ensures inner { self.new.inner ≡ self.old.inner }
    {
        self.head.extend_from_slice(bytes)
    }

    /// Reads more bytes ahead, and returns their number: 0 at the end, or where the read fails. A
    /// later read gives them, and then that fault. Fails only if no memory is left.
    #[tactic(auto, using(crate::proofs::AheadLemmas::ahead))]
    pub fn read_on(&mut self) -> Result<usize, AllocError>
        ensures left { OnOk result (Keeps (left_of R.remaining self.old)
            (left_of R.remaining self.new)) }
        ensures head { LongerBy result (head_of self.old) (head_of self.new) }
        ensures end { result ≡ Ok 0 → has_fault self.new ≡ false
            → IsAtEnd (R.remaining (inner_of self.new)) }
    {
        self.settle();
        let mut block = [0u8; MOST_AHEAD];
        match self.inner.read(&mut block) {
            Ok(count) => {
                self.keep(&block[..count])?;
                Ok(count)
            }
            Err(error) => {
                self.fault = Some(error);
                Ok(0)
            }
        }
    }
}

impl Ahead<Input<'_>> {
    /// Lets a watch read what is read of the input from now on. What was read ahead stays.
    pub fn set_watch(&mut self, watch: Option<Watch>)
        ensures head { head_of self.new ≡ head_of self.old }
        ensures fault { has_fault self.new ≡ has_fault self.old }
    {
        self.inner.set_watch(watch);
    }
}

impl<R: Read> Read for Ahead<R> {
    ghost use Rattle.stamps.specs.Ahead.{left_of};

    ghost remaining = { left_of R.remaining };

    #[tactic(auto, using(crate::proofs::AheadLemmas::ahead))]
    fn read(&mut self, buffer: &mut [u8]) -> io::Result<usize> {
        if self.served < self.head.len() {
            return Ok(self.read_again(buffer));
        }
        self.free();
        match self.fault.take() {
            Some(error) => Err(error),
            None => self.inner.read(buffer),
        }
    }
}

// Copies as many bytes as both have, and returns their number.
pub(crate) fn copy_front(from: &[u8], to: &mut [u8]) -> usize
    ensures count { result ≡ min (length from.now) (length to.old) }
    ensures within { result ≤ length from.now }
    ensures copied { to.new ≡ take result from.now ++ drop result to.old }
{
    let count = from.len().min(to.len());
    to[..count].copy_from_slice(&from[..count]);
    count
}
