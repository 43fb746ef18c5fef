// Copyright 2018 Amazon.com, Inc. or its affiliates. All Rights Reserved.
//
// Portions Copyright 2017 The Chromium OS Authors. All rights reserved.
// Use of this source code is governed by a BSD-style license that can be
// found in the NOTICE file.
//
// SPDX-License-Identifier: Apache-2.0 AND BSD-3-Clause
//
// Where a whole line is split into boot text and init text.
ghost use Rattle.std.specs.Prelude.{◌≡◌, ◌≤◌, length, drop};
ghost use Rattle.slugs.specs.Splitting.{even_after, splits, split_at, Skips};

use crate::bytes;
use fields::tags;

// Is the number of quotes even after one byte more? `even` is a property that is tested, and not a choice of steps, so
// it is a `bool`.
#[tactic(auto, unfolding(answers::specs::Pick::pick, crate::specs::Splitting::even_after))]
fn even_after(even: bool, byte: u8) -> bool
    ensures { result ≡ even_after even byte }
{
    if byte == b'"' { !even } else { even }
}

// Is a separator at the place, with an even number of quotes before it?
#[tactic(auto, unfolding(answers::specs::Pick::pick, crate::specs::Splitting::splits))]
fn splits(even: bool, s: &[u8], at: usize) -> bool
    ensures { result ≡ splits even (drop at s.now) }
{
    even && tags::is_tag(s, at as u64, b" -- ")
}

// How far from a place the next one is that may have a separator or a quote: 64 if the bytes up to there, and the one
// after them, are neither quotes nor dashes; else 1. The long step is taken at every 64th place, where many bytes are
// looked at at once.
fn stride(s: &[u8], i: usize) -> usize
    ensures { Skips s.now i result }
{
    if i % 64 != 0 || s.len() < 65 || s.len() - 65 < i {
        return 1;
    }
    let part = &s[i + 1..i + 65];
    if bytes::part_has(part, b'"') || bytes::part_has(part, b'-') {
        1
    } else {
        64
    }
}

// The place of the first such separator, or the length.
pub fn split_at(s: &[u8]) -> usize
    ensures { (result ≡ split_at s.now) × (result ≤ length s.now) }
{
    let mut even = true;
    // Steps are of 1 or of 64 bytes, so no iterator gives these places.
    let mut i = 0;
    while i < s.len() {
        if splits(even, s, i) {
            return i;
        }
        even = even_after(even, s[i]);
        i += stride(s, i);
    }
    i
}

// What lies after a separator at the place, or nothing.
pub fn after(s: &[u8], at: usize) -> &[u8]
    ensures { result.now ≡ drop 4 (drop at s.now) }
{
    let rest = &s[at.min(s.len())..];
    &rest[rest.len().min(4)..]
}
