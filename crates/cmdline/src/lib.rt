// Copyright 2018 Amazon.com, Inc. or its affiliates. All Rights Reserved.
//
// Portions Copyright 2017 The Chromium OS Authors. All rights reserved.
// Use of this source code is governed by a BSD-style license that can be
// found in the NOTICE file.
//
// SPDX-License-Identifier: Apache-2.0 AND BSD-3-Clause
//
// A kernel command line: built word by word, read from a text, written with its zero, compared.
#![tactic(auto, unfolding(answers::specs::Pick::pick, answers::specs::Tests::asked))]

ghost use Rattle.std.specs.Prelude.{◌≡◌, OnErr, min};
ghost use Rattle.std.specs.Cmp.{on_per};
ghost use Rattle.std.specs.Ordering.{on};
ghost use Rattle.cmdline.specs.SameLaws.{same_laws};
ghost use Rattle.cmdline.specs.Insertion.{insert_str, insert_init_args, insert, insert_multiple};
ghost use Rattle.cmdline.specs.Device.{add_device};
ghost use Rattle.cmdline.specs.Making.{new, try_from};
ghost use Rattle.cmdline.specs.Writing.{same_line};
ghost use Rattle.cmdline.specs.Held.{text_of, blank_line, reply_of, made_of, line_of, clamped_line, Replies, WrittenAs};

use crate::sizes::Lengths;
use answers::Refusal;
use guest::GuestAddress;
use slugs::{buffers, splitting, trimming};

mod device;
pub mod digits;
pub mod in_place;
pub mod sizes;
pub mod writing;

// The greatest capacity, the closing zero counted, and the length of each buffer.
pub const LIMIT: usize = 16384;

// The two texts, each at the start of its buffer with zeros after it, and the greatest counted size. A length or a
// capacity above LIMIT, which no function here makes, counts as LIMIT. A buffer has its length beside it, since there
// is no heap. The three numbers are not one field of `Lengths`: they were public fields before it, and stay.
#[derive(Clone, Copy)]
pub struct Cmdline {
    pub boot: [u8; LIMIT],
    pub boots: usize,
    pub init: [u8; LIMIT],
    pub inits: usize,
    pub capacity: usize,
}

// An insertion that is refused leaves the line unchanged, both buffers included.
impl Cmdline {
    fn blank(capacity: usize) -> Cmdline
        ensures { result ≡ blank_line capacity }
    {
        Cmdline {
            boot: [0; LIMIT],
            boots: 0,
            init: [0; LIMIT],
            inits: 0,
            capacity,
        }
    }

    fn lengths(&self) -> Lengths
        ensures { result ≡ record {
          boot_len = self.now.boots;
          init_len = self.now.inits;
          capacity = self.now.capacity;
        } }
    {
        Lengths {
            boot_len: self.boots,
            init_len: self.inits,
            capacity: self.capacity,
        }
    }

    // Sets the three numbers, each to no more than LIMIT.
    fn set_lengths(&mut self, lengths: Lengths)
        ensures { self.new ≡ clamped_line self.old.boot lengths.boot_len self.old.init lengths.init_len
            lengths.capacity }
    {
        self.boots = lengths.boot_len.min(LIMIT);
        self.inits = lengths.init_len.min(LIMIT);
        self.capacity = lengths.capacity.min(LIMIT);
    }

    // An empty line.
    pub fn new(capacity: usize) -> Result<Cmdline, Refusal>
        ensures { result ≡ line_of (made_of (new capacity)) }
    {
        answers::require(sizes::is_capacity(capacity), Refusal::InvalidCapacity)?;
        Ok(Cmdline::blank(capacity))
    }

    // A line from its text: boot text and init text, split at the first separator outside of quotes. Not `TryFrom`: it
    // takes the capacity too, as linux-loader's does.
    pub fn try_from(raw: &[u8], capacity: usize) -> Result<Cmdline, Refusal>
        ensures { result ≡ line_of (made_of (try_from raw.now capacity)) }
    {
        let at = splitting::split_at(raw);
        let before = trimming::trimmed(&raw[..at]);
        let after = trimming::trimmed(splitting::after(raw, at));
        let lengths = Lengths {
            boot_len: before.len(),
            init_len: after.len(),
            capacity,
        };
        lengths.check()?;
        let mut line = Cmdline::blank(capacity);
        line.boots = buffers::put(&mut line.boot, 0, before);
        line.inits = buffers::put(&mut line.init, 0, after);
        Ok(line)
    }

    // A key, an equals sign and a value, after the boot text.
    pub fn insert(&mut self, key: &[u8], value: &[u8]) -> Result<(), Refusal>
        ensures reply { Replies (reply_of self.old (insert (text_of self.old) key.now value.now)) result self.new }
        ensures kept { OnErr result (self.new ≡ self.old) }
    {
        let mut lengths = self.lengths();
        lengths.boot_len = in_place::insert(&mut self.boot, lengths, key, value)?;
        self.set_lengths(lengths);
        Ok(())
    }

    // A key, an equals sign and values joined by commas, after the boot text. The values are one after the other in a
    // buffer, and the list has the end of each, as the C function takes them.
    pub fn insert_multiple(
        &mut self,
        key: &[u8],
        values: &[u8],
        ends: &[usize],
    ) -> Result<(), Refusal>
        ensures reply { Replies (reply_of self.old (insert_multiple (text_of self.old) key.now values.now ends.now))
            result self.new }
        ensures kept { OnErr result (self.new ≡ self.old) }
    {
        let mut lengths = self.lengths();
        lengths.boot_len = in_place::insert_multiple(&mut self.boot, lengths, key, values, ends)?;
        self.set_lengths(lengths);
        Ok(())
    }

    // A slug, after the boot text.
    pub fn insert_str(&mut self, slug: &[u8]) -> Result<(), Refusal>
        ensures reply { Replies (reply_of self.old (insert_str (text_of self.old) slug.now)) result self.new }
        ensures kept { OnErr result (self.new ≡ self.old) }
    {
        let mut lengths = self.lengths();
        lengths.boot_len = in_place::insert_str(&mut self.boot, lengths, slug)?;
        self.set_lengths(lengths);
        Ok(())
    }

    // A slug, after the init text.
    pub fn insert_init_args(&mut self, slug: &[u8]) -> Result<(), Refusal>
        ensures reply { Replies (reply_of self.old (insert_init_args (text_of self.old) slug.now)) result self.new }
        ensures kept { OnErr result (self.new ≡ self.old) }
    {
        let mut lengths = self.lengths();
        lengths.init_len = in_place::insert_init_args(&mut self.init, lengths, slug)?;
        self.set_lengths(lengths);
        Ok(())
    }

    // The text of a virtio device, after the boot text.
    pub fn add_virtio_mmio_device(
        &mut self,
        size: u64,
        baseaddr: GuestAddress,
        irq: u32,
        id: Option<u32>,
    ) -> Result<(), Refusal>
        ensures reply { Replies (reply_of self.old (add_device (text_of self.old) size baseaddr.0 irq id))
            result self.new }
        ensures kept { OnErr result (self.new ≡ self.old) }
    {
        let mut lengths = self.lengths();
        lengths.boot_len = in_place::add_virtio_mmio_device(
            &mut self.boot,
            lengths,
            size,
            baseaddr,
            irq,
            id,
        )?;
        self.set_lengths(lengths);
        Ok(())
    }

    // The boot text.
    pub fn boot_text(&self) -> &[u8]
        ensures { result.now ≡ (text_of self.now).boot }
    {
        &self.boot[..self.boots.min(LIMIT)]
    }

    // The init text.
    pub fn init_text(&self) -> &[u8]
        ensures { result.now ≡ (text_of self.now).init }
    {
        &self.init[..self.inits.min(LIMIT)]
    }

    // The text of the line and its closing zero, written to the start of out; how many bytes, the zero counted.
    pub fn as_cstring(&self, out: &mut [u8]) -> Result<usize, Refusal>
        ensures { WrittenAs self.now out.old result out.new }
    {
        writing::as_cstring(out, self.boot_text(), self.init_text())
    }
}

// Would the two lines be written as the same bytes, or refused alike, in a buffer that is large enough? Not derived:
// what a buffer has after its text makes no difference, nor does the capacity.
impl PartialEq for Cmdline {
    ghost eq = { on text_of same_line };

    ghost laws = { on_per text_of same_laws };

    fn eq(&self, other: &Cmdline) -> bool {
        writing::same_line(
            self.boot_text(),
            self.init_text(),
            other.boot_text(),
            other.init_text(),
        )
    }
}
