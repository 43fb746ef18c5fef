// Copyright 2018 Amazon.com, Inc. or its affiliates. All Rights Reserved.
//
// Portions Copyright 2017 The Chromium OS Authors. All rights reserved.
// Use of this source code is governed by a BSD-style license that can be
// found in the NOTICE file.
//
// SPDX-License-Identifier: Apache-2.0 AND BSD-3-Clause
//
// What a value is checked for.
ghost use Rattle.std.specs.Prelude.{◌≡◌};
ghost use Rattle.answers.specs.Tests.{pass, asked_all};
ghost use Rattle.slugs.specs.Bytes.{quote, has};
ghost use Rattle.slugs.specs.Values.{quoted, inner, protected, value_tests};

use crate::bytes;
use answers::Refusal;

// Two bytes or more, with a quote at each end.
#[tactic(auto, unfolding(crate::specs::Values::quoted))]
fn is_quoted(s: &[u8]) -> bool
    ensures { result ≡ quoted s.now }
{
    matches!(s, [b'"', .., b'"'])
}

// A quote strictly between the first byte and the last.
fn contains_double_quotes(s: &[u8]) -> bool
    ensures { result ≡ has quote (inner s.now) }
{
    match s {
        [_, inner @ .., _] => bytes::has(inner, b'"'),
        _ => false,
    }
}

// No space, or quotes around it.
#[tactic(auto, unfolding(answers::specs::Pick::pick, crate::specs::Values::protected))]
fn is_protected(s: &[u8]) -> bool
    ensures { result ≡ protected s.now }
{
    !bytes::has(s, b' ') || is_quoted(s)
}

#[tactic(auto, unfolding(answers::specs::Pick::pick, answers::specs::Tests::asked, crate::specs::Values::value_tests))]
pub fn check(value: &[u8]) -> Result<(), Refusal>
    ensures { result ≡ asked_all pass (value_tests value.now) }
{
    answers::require(bytes::all_printable(value), Refusal::InvalidAscii)?;
    answers::require(!contains_double_quotes(value), Refusal::InvalidQuote)?;
    answers::require(is_protected(value), Refusal::NoQuoteSpace)
}
