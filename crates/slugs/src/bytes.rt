// Copyright 2018 Amazon.com, Inc. or its affiliates. All Rights Reserved.
//
// Portions Copyright 2017 The Chromium OS Authors. All rights reserved.
// Use of this source code is governed by a BSD-style license that can be
// found in the NOTICE file.
//
// SPDX-License-Identifier: Apache-2.0 AND BSD-3-Clause
//
// Tests of bytes.
ghost use Rattle.std.specs.Prelude.{◌≡◌};
ghost use Rattle.slugs.specs.Bytes.{blank, printable, all_bytes, has};

// A tab, a line end, a space: what trimming takes.
#[tactic(auto, unfolding(crate::specs::Bytes::blank))]
pub fn is_blank(byte: u8) -> bool
    ensures { result ≡ blank byte }
{
    matches!(byte, b' ' | 9..=13)
}

#[tactic(auto, unfolding(crate::specs::Bytes::printable))]
pub fn is_printable(byte: u8) -> bool
    ensures { result ≡ printable byte }
{
    matches!(byte, 32..=126)
}

// Is every byte of a part printable? `part_is_printable` and `part_has` look at every byte, so that the compiler looks at
// many in one step.
fn part_is_printable(s: &[u8]) -> bool
    ensures { result ≡ all_bytes printable s.now }
{
    s.iter().fold(true, |all, byte| all & is_printable(*byte))
}

// Part by part: the first part with a byte that is not printable ends the search.
pub fn all_printable(s: &[u8]) -> bool
    ensures { result ≡ all_bytes printable s.now }
{
    for part in s.chunks(64) {
        if !part_is_printable(part) {
            return false;
        }
    }
    true
}

// Is the byte among those of s? `contains` looks at many bytes in one step.
pub fn has(s: &[u8], byte: u8) -> bool
    ensures { result ≡ has byte s.now }
{
    s.contains(&byte)
}

// The same of a part of 64 bytes, for which `contains` took half as long again. Inlined, since the length is a constant
// there.
#[inline(always)]
pub(crate) fn part_has(s: &[u8], byte: u8) -> bool
    ensures { result ≡ has byte s.now }
{
    s.iter()
        .fold(false, |found, other| found | (*other == byte))
}
