// Copyright 2018 Amazon.com, Inc. or its affiliates. All Rights Reserved.
//
// Portions Copyright 2017 The Chromium OS Authors. All rights reserved.
// Use of this source code is governed by a BSD-style license that can be
// found in the NOTICE file.
//
// SPDX-License-Identifier: Apache-2.0 AND BSD-3-Clause
//
// The whole text of a line: checked, written, compared. A line is passed as its two texts, as the C functions find them
// in the caller's bytes: a struct of two slices would be filled at each call and taken apart in each function.
ghost use Rattle.std.specs.Prelude.{◌≡◌, [], ◌∷◌, ◌++◌, ◌≤◌, ◌<◌, length, get_or, take};
ghost use Rattle.answers.specs.Tests.{pass, asked_all};
ghost use Rattle.slugs.specs.Stored.{Stored};
ghost use Rattle.cmdline.specs.Limit.{limit};
ghost use Rattle.cmdline.specs.Writing.{bare, headed, whole_line, separator_before, text_tests};
ghost use Rattle.cmdline.specs.Writing.{same_bytes, same_line, Writes};

use crate::{LIMIT, sizes};
use answers::Refusal;
use slugs::{buffers, bytes};

// No init text, or boot text before it.
#[tactic(auto, unfolding(answers::specs::Pick::pick, crate::specs::Writing::headed))]
fn is_headed(boot_len: usize, init_len: usize) -> bool
    ensures { result ≡ headed boot_len init_len }
{
    init_len == 0 || 0 < boot_len
}

// The tests of the whole text.
pub fn text_gate(boot: &[u8], init: &[u8]) -> Result<(), Refusal>
    ensures { result ≡ asked_all pass (text_tests boot.now init.now) }
{
    answers::require(
        is_headed(boot.len(), init.len()),
        Refusal::NoBootArgsInserted,
    )?;
    answers::require(!bytes::has(boot, 0), Refusal::NullTerminator)?;
    answers::require(!bytes::has(init, 0), Refusal::NullTerminator)
}

// What is between the boot text and this init text.
#[tactic(auto, unfolding(answers::specs::Pick::pick, crate::specs::Writing::separator_before))]
fn separator(init: &[u8]) -> &'static [u8]
    ensures { result.now ≡ separator_before init.now }
{
    if init.is_empty() { b"" } else { b" -- " }
}

// The whole text and its zero, at the start of out, as far as it goes; the place after them.
pub fn write(out: &mut [u8], boot: &[u8], init: &[u8]) -> usize
    ensures { Stored out.old 0 (whole_line boot.now init.now ++ (0 ∷ [])) out.new result }
{
    let at = buffers::put(out, 0, boot);
    let at = buffers::put(out, at, separator(init));
    let at = buffers::put(out, at, init);
    buffers::put(out, at, b"\0")
}

// The text of a line and its closing zero, written to the start of out. Everything is checked first; a refusal
// writes nothing.
pub fn as_cstring(out: &mut [u8], boot: &[u8], init: &[u8]) -> Result<usize, Refusal>
    ensures { Writes (bare boot.now init.now) out.old result out.new }
{
    text_gate(boot, init)?;
    answers::require(
        sizes::fits(out.len(), boot.len(), init.len()),
        Refusal::NoRoom,
    )?;
    Ok(write(out, boot, init))
}

// The byte at a place of the whole text.
fn byte_at(boot: &[u8], init: &[u8], at: usize) -> u8
    requires { at < length (whole_line boot.now init.now) }
    ensures { result ≡ get_or (whole_line boot.now init.now) at 0 }
{
    if at < boot.len() {
        return boot[at];
    }
    let past = at - boot.len();
    if past < 4 {
        return b" -- "[past];
    }
    init[past - 4]
}

// Are two whole texts the same? Texts that are split at one place are compared as slices, and else byte by byte if they
// have one size. A `for`: with `all` it took 1.5 times as long, and with `eq` of two chains of the parts twice.
fn same_whole(boot: &[u8], init: &[u8], boot2: &[u8], init2: &[u8]) -> bool
    requires { (length boot.now ≤ limit) × (length init.now ≤ limit) × (length boot2.now ≤ limit)
        × (length init2.now ≤ limit) }
    ensures { result ≡ same_bytes (whole_line boot.now init.now) (whole_line boot2.now init2.now) }
{
    if boot.len() == boot2.len() && init.len() == init2.len() {
        return boot == boot2 && init == init2;
    }
    let n = sizes::size(boot.len(), init.len());
    if n != sizes::size(boot2.len(), init2.len()) {
        return false;
    }
    for i in 0..n - 1 {
        if byte_at(boot, init, i) != byte_at(boot2, init2, i) {
            return false;
        }
    }
    true
}

// As much of a text as a line can hold.
fn clipped(s: &[u8]) -> &[u8]
    ensures { result.now ≡ take limit s.now }
{
    &s[..s.len().min(LIMIT)]
}

// Would two lines be written as the same bytes, or refused alike, in a buffer that is large enough? Of a text that is
// longer than the limit, which no line holds, the first LIMIT bytes count.
pub fn same_line(boot: &[u8], init: &[u8], boot2: &[u8], init2: &[u8]) -> bool
    ensures { result ≡ same_line (bare (take limit boot.now) (take limit init.now))
        (bare (take limit boot2.now) (take limit init2.now)) }
{
    let boot = clipped(boot);
    let init = clipped(init);
    let boot2 = clipped(boot2);
    let init2 = clipped(init2);
    let first = text_gate(boot, init);
    first == text_gate(boot2, init2) && (first.is_err() || same_whole(boot, init, boot2, init2))
}
