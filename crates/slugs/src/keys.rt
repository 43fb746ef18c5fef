// Copyright 2018 Amazon.com, Inc. or its affiliates. All Rights Reserved.
//
// Portions Copyright 2017 The Chromium OS Authors. All rights reserved.
// Use of this source code is governed by a BSD-style license that can be
// found in the NOTICE file.
//
// SPDX-License-Identifier: Apache-2.0 AND BSD-3-Clause
//
// What a key is checked for.
ghost use Rattle.std.specs.Prelude.{◌≡◌};
ghost use Rattle.answers.specs.Tests.{pass, asked_all};
ghost use Rattle.slugs.specs.Keys.{key_tests};

use crate::bytes;
use answers::Refusal;

#[tactic(auto, unfolding(answers::specs::Pick::pick, answers::specs::Tests::asked, crate::specs::Keys::key_tests))]
pub fn check(key: &[u8]) -> Result<(), Refusal>
    ensures { result ≡ asked_all pass (key_tests key.now) }
{
    answers::require(bytes::all_printable(key), Refusal::InvalidAscii)?;
    answers::require(!bytes::has(key, b' '), Refusal::HasSpace)?;
    answers::require(!bytes::has(key, b'='), Refusal::HasEquals)
}
