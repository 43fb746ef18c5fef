// Copyright 2018 Amazon.com, Inc. or its affiliates. All Rights Reserved.
//
// Portions Copyright 2017 The Chromium OS Authors. All rights reserved.
// Use of this source code is governed by a BSD-style license that can be
// found in the NOTICE file.
//
// SPDX-License-Identifier: Apache-2.0 AND BSD-3-Clause
//
// Sizes of a line, by the lengths of its two texts. `fits` and `size` take these two numbers and no `Lengths`, since a
// line that is written or loaded is two slices, with no capacity.
ghost use Rattle.std.specs.Prelude.{◌≡◌, ◌+◌, ◌-◌, ◌^◌, ◌≤◌, min, leb};
ghost use Rattle.answers.specs.Tests.{pass, asked_all};
ghost use Rattle.cmdline.specs.Limit.{limit, allowed};
ghost use Rattle.cmdline.specs.Making.{size_tests};
ghost use Rattle.cmdline.specs.InPlace.{room_tests};
ghost use Rattle.cmdline.specs.Text.{size_of, boot_gap, init_gap};

use crate::LIMIT;
use answers::Refusal;
use fields::ranges;

// The lengths of the two texts of a line, and its capacity. If a line is changed in place, a number above LIMIT
// counts as LIMIT.
#[derive(Clone, Copy)]
pub struct Lengths {
    pub boot_len: usize,
    pub init_len: usize,
    pub capacity: usize,
}

// The room that a line has for more bytes of one of its texts: the length of that text, the counted size of the line
// with what joins the bytes to the text, and the capacity.
#[derive(Clone, Copy)]
pub(crate) struct Room {
    pub text: usize,
    pub size: usize,
    pub capacity: usize,
}

#[tactic(auto, unfolding(crate::specs::Limit::allowed))]
pub fn is_capacity(capacity: usize) -> bool
    ensures { result ≡ allowed capacity }
{
    (1..=LIMIT).contains(&capacity)
}

// Is the counted size of two texts of these lengths within the room? No sum is formed, so any lengths may be passed.
pub fn fits(room: usize, boot_len: usize, init_len: usize) -> bool
    ensures { result ≡ leb (size_of boot_len init_len) room }
{
    if init_len == 0 {
        within(room, boot_len, 1)
    } else {
        boot_len < room && within(room - boot_len - 1, 4, init_len)
    }
}

// A sum, no more than the limit.
pub(crate) fn sum(a: usize, b: usize) -> usize
    ensures { result ≡ min (a + b) limit }
{
    a.saturating_add(b).min(LIMIT)
}

// Is the sum of a size and a length within the capacity?
fn within(capacity: usize, size: usize, n: usize) -> bool
    ensures { result ≡ leb (size + n) capacity }
{
    ranges::within(capacity as u64, size as u64, n as u64)
}

// The counted size: the boot text and its zero, and the separator and the init text if there is init text. A size that
// passes 64 bits counts as the greatest number.
#[tactic(auto, unfolding(answers::specs::Pick::pick, crate::specs::Text::size_of))]
pub fn size(boot_len: usize, init_len: usize) -> usize
    ensures { result ≡ min (size_of boot_len init_len) (2 ^ 64 - 1) }
{
    let boot = boot_len.saturating_add(1);
    if init_len == 0 {
        boot
    } else {
        boot.saturating_add(4).saturating_add(init_len)
    }
}

// What an insertion into the boot text is charged before its own bytes: a space if there is boot text. `boot_gap` and
// `init_gap` are two, as their definitions are, and so are `boot_room` and `init_room`.
#[tactic(auto, unfolding(answers::specs::Pick::pick, crate::specs::Text::boot_gap))]
fn boot_gap(boot_len: usize) -> usize
    ensures { result ≡ boot_gap boot_len }
{
    if boot_len == 0 { 0 } else { 1 }
}

// What an insertion into the init text is charged: the separator if there is no init text yet, else a space.
#[tactic(auto, unfolding(answers::specs::Pick::pick, crate::specs::Text::init_gap))]
fn init_gap(init_len: usize) -> usize
    ensures { result ≡ init_gap init_len }
{
    if init_len == 0 { 4 } else { 1 }
}

impl Lengths {
    // The tests of the three numbers of a line: a capacity that is allowed, then a counted size within it.
    pub fn check(self) -> Result<(), Refusal>
        ensures { result ≡ asked_all pass (size_tests self.boot_len self.init_len self.capacity) }
    {
        answers::require(is_capacity(self.capacity), Refusal::InvalidCapacity)?;
        answers::require(
            fits(self.capacity, self.boot_len, self.init_len),
            Refusal::InvalidCapacity,
        )
    }

    // The room for more boot text.
    pub(crate) fn boot_room(self) -> Room
        ensures text { result.text ≡ min self.boot_len limit }
        ensures size { result.size ≡ size_of (min self.boot_len limit) (min self.init_len limit)
            + boot_gap (min self.boot_len limit) }
        ensures capacity { result.capacity ≡ min self.capacity limit }
    {
        let boot_len = self.boot_len.min(LIMIT);
        Room {
            text: boot_len,
            size: size(boot_len, self.init_len.min(LIMIT)) + boot_gap(boot_len),
            capacity: self.capacity.min(LIMIT),
        }
    }

    // The room for more init text.
    pub(crate) fn init_room(self) -> Room
        ensures text { result.text ≡ min self.init_len limit }
        ensures size { result.size ≡ size_of (min self.boot_len limit) (min self.init_len limit)
            + init_gap (min self.init_len limit) }
        ensures capacity { result.capacity ≡ min self.capacity limit }
    {
        let init_len = self.init_len.min(LIMIT);
        Room {
            text: init_len,
            size: size(self.boot_len.min(LIMIT), init_len) + init_gap(init_len),
            capacity: self.capacity.min(LIMIT),
        }
    }
}

impl Room {
    // The tests of n bytes more: that the line has room for them, then that a buffer which holds the text has, with the
    // space between them.
    pub(crate) fn check(self, buffer: usize, n: usize) -> Result<(), Refusal>
        requires { self.text ≤ limit }
        ensures { result ≡ asked_all pass (room_tests self.size self.capacity self.text buffer n) }
    {
        answers::require(within(self.capacity, self.size, n), Refusal::TooLarge)?;
        let text = self.text;
        answers::require(within(buffer, text + boot_gap(text), n), Refusal::TooLarge)
    }
}
