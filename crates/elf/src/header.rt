// Copyright © 2020, Oracle and/or its affiliates.
// Copyright (c) 2019 Intel Corporation. All rights reserved.
// Copyright 2018 Amazon.com, Inc. or its affiliates. All Rights Reserved.
//
// Copyright 2017 The Chromium OS Authors. All rights reserved.
// Use of this source code is governed by a BSD-style license that can be
// found in the NOTICE file.
//
// SPDX-License-Identifier: Apache-2.0 AND BSD-3-Clause

// The ELF header: the tests before the program headers.
ghost use Rattle.std.specs.Prelude.{◌≡◌, ◌<◌};
ghost use Rattle.answers.specs.Tests.{pass, asked_all};
ghost use Rattle.elf.specs.Header.{stand_within, tests};

use answers::Refusal;
use fields::{numbers, ranges, tags};
use guest::{GuestAddress, ImagePlace, Memory, addresses, lent};

// Do n program headers from a place lie within the image? If there are none, the place may be any.
#[tactic(auto, unfolding(answers::specs::Pick::pick, crate::specs::Header::stand_within))]
fn stand_within(len: u64, e_phoff: ImagePlace, n: u64) -> bool
    requires { n < 65536 }
    ensures { result ≡ stand_within len e_phoff.0 n }
{
    n == 0 || ranges::within(len, e_phoff.0, 56 * n)
}

// The tests before the program headers, in their order. Each reading is total, so no test depends on one before it.
pub(crate) fn validate_header(
    image: &[u8],
    memory: &Memory,
    offset: Option<GuestAddress>,
    highmem: Option<GuestAddress>,
) -> Result<(), Refusal>
    ensures { result ≡ asked_all pass (tests image.now memory.now offset highmem) }
{
    let len = image.len() as u64;
    let e_entry = numbers::read_u64(image, 24);
    let e_phoff = numbers::read_u64(image, 32);
    let e_phentsize = numbers::read_u16(image, 54);
    let e_phnum = numbers::read_u16(image, 56);
    lent::ask(len, memory)?;
    answers::require(64 <= len, Refusal::ReadElfHeader)?;
    answers::require(
        tags::is_tag(image, 0, b"\x7fELF"),
        Refusal::InvalidElfMagicNumber,
    )?;
    answers::require(
        numbers::byte_at(image, 0, 5) == 1,
        Refusal::BigEndianElfOnLittle,
    )?;
    answers::require(e_phentsize == 56, Refusal::InvalidProgramHeaderSize)?;
    answers::require(64 <= e_phoff, Refusal::InvalidProgramHeaderOffset)?;
    answers::require(
        addresses::amount(highmem) <= e_entry,
        Refusal::InvalidEntryAddress,
    )?;
    answers::require(
        ranges::sum_fits(addresses::amount(offset), e_entry),
        Refusal::Overflow,
    )?;
    answers::require(
        stand_within(len, ImagePlace(e_phoff), e_phnum),
        Refusal::ReadProgramHeader,
    )
}
