// Copyright 2018 Amazon.com, Inc. or its affiliates. All Rights Reserved.
//
// Portions Copyright 2017 The Chromium OS Authors. All rights reserved.
// Use of this source code is governed by a BSD-style license that can be
// found in the NOTICE file.
//
// SPDX-License-Identifier: Apache-2.0 AND BSD-3-Clause
//
// A list of values: one buffer, and the list of their ends. Both are passed as the C functions take them, so they stay
// two slices and no `&[&[u8]]`, which would need memory for the inner slices.
ghost use Rattle.std.specs.Prelude.{◌≡◌, ◌++◌};
ghost use Rattle.answers.specs.Tests.{pass, asked_all};
ghost use Rattle.slugs.specs.Bytes.{equals};
ghost use Rattle.slugs.specs.Lists.{good_list, part, list_tests, listed};
ghost use Rattle.slugs.specs.Stored.{Stored};
ghost use Rattle.slugs.specs.Joining.{space_after};

use crate::{buffers, values};
use answers::Refusal;

// No end falls, and the last is the buffer's length; an empty list is good.
pub fn is_list(ends: &[usize], len: usize) -> bool
    ensures { result ≡ good_list ends.now len }
{
    match ends.last() {
        None => true,
        Some(last) => ends.is_sorted() && *last == len,
    }
}

// The bytes of the buffer from a place up to an end, as far as it goes.
fn value_at(values: &[u8], at: usize, end: usize) -> &[u8]
    ensures { result.now ≡ part at end values.now }
{
    let to = end.min(values.len());
    let from = at.min(to);
    &values[from..to]
}

// Each value in turn.
pub fn check(values: &[u8], ends: &[usize]) -> Result<(), Refusal>
    ensures { result ≡ asked_all pass (list_tests 0 ends.now values.now) }
{
    let mut at = 0;
    for end in ends {
        values::check(value_at(values, at, *end))?;
        at = *end;
    }
    Ok(())
}

// An equals sign and the values joined by commas, from a place on; the place after them.
fn put_values(d: &mut [u8], start: usize, values: &[u8], ends: &[usize]) -> usize
    ensures { Stored d.old start (listed equals 0 ends.now values.now) d.new result }
{
    let mut place = start;
    let mut mark = b'=';
    let mut at = 0;
    for end in ends {
        place = buffers::put(d, place, &[mark]);
        place = buffers::put(d, place, value_at(values, at, *end));
        mark = b',';
        at = *end;
    }
    place.min(d.len())
}

// After a text of n bytes: a space if there is text, the key, an equals sign and the values joined by commas.
pub fn put_list(d: &mut [u8], n: usize, key: &[u8], values: &[u8], ends: &[usize]) -> usize
    ensures { Stored d.old n (space_after n ++ (key.now ++ listed equals 0 ends.now values.now)) d.new result }
{
    let at = buffers::put_after(d, n, key);
    put_values(d, at, values, ends)
}
