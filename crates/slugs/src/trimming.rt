// Copyright 2018 Amazon.com, Inc. or its affiliates. All Rights Reserved.
//
// Portions Copyright 2017 The Chromium OS Authors. All rights reserved.
// Use of this source code is governed by a BSD-style license that can be
// found in the NOTICE file.
//
// SPDX-License-Identifier: Apache-2.0 AND BSD-3-Clause
//
// A text without the blanks at its ends.
ghost use Rattle.std.specs.Prelude.{◌≡◌, ◌≤◌, length, take, drop};
ghost use Rattle.slugs.specs.Trimming.{trim_start, trim_end, trim};

use crate::bytes;

// The place of the first byte that is not blank, or the length.
fn first_place(s: &[u8]) -> usize
    ensures { (result ≤ length s.now) × (drop result s.now ≡ trim_start s.now) }
{
    s.iter()
        .position(|byte| !bytes::is_blank(*byte))
        .unwrap_or(s.len())
}

// The place after the last byte that is not blank, or 0.
fn last_place(s: &[u8]) -> usize
    ensures { (result ≤ length s.now) × (take result s.now ≡ trim_end s.now) }
{
    match s.iter().rposition(|byte| !bytes::is_blank(*byte)) {
        Some(last) => last + 1,
        None => 0,
    }
}

pub fn trimmed(s: &[u8]) -> &[u8]
    ensures { result.now ≡ trim s.now }
{
    let from = first_place(s);
    let rest = &s[from..];
    let end = last_place(rest);
    &rest[..end]
}
