// Copyright (c) 2019 Intel Corporation. All rights reserved.
// Copyright 2018 Amazon.com, Inc. or its affiliates. All Rights Reserved.
//
// Copyright 2017 The Chromium OS Authors. All rights reserved.
// Use of this source code is governed by a BSD-style license that can be
// found in the NOTICE file.
//
// SPDX-License-Identifier: Apache-2.0 AND BSD-3-Clause

// The plan of a load: the tests in their order, and what it returns.
ghost use Rattle.std.specs.Prelude.{◌≡◌};
ghost use Rattle.bzimage.specs.Plan.{tests, plan_of};
ghost use Rattle.answers.specs.Tests.{pass, asked_all};

use crate::{kernel, setup_header};
use answers::Refusal;
use fields::numbers;
use guest::{GuestAddress, KernelLoaderResult, Memory, PvhBootCapability, addresses, lent, room};

// The tests. Each reading is total, so no test depends on one before it.
#[tactic(auto, using(crate::proofs::SetupHeaderLaws::at_header, crate::proofs::SetupHeaderLaws::at_version, crate::proofs::SetupHeaderLaws::at_loadflags), unfolding(answers::specs::Pick::pick, answers::specs::Tests::asked, guest::specs::Addresses::given_or))]
fn validate(
    image: &[u8],
    memory: &Memory,
    offset: Option<GuestAddress>,
    highmem: Option<GuestAddress>,
) -> Result<(), Refusal>
    ensures { result ≡ asked_all pass (tests image.now memory.now offset highmem) }
{
    let len = image.len() as u64;
    let magic = numbers::read_u32(image, setup_header::place(setup_header::HEADER).0);
    let version = numbers::read_u16(image, setup_header::place(setup_header::VERSION).0);
    let flags = numbers::byte_at(image, setup_header::place(setup_header::LOADFLAGS).0, 0);
    let setup = kernel::setup_size(image);
    let start = kernel::code32_start(image);
    let load = offset.unwrap_or(start);
    let room = room::room_for(memory, load, kernel::kernel_size(image));
    lent::ask(len, memory)?;
    answers::require(magic == 0x5372_6448, Refusal::InvalidBzImage)?;
    answers::require(0x200 <= version, Refusal::InvalidBzImage)?;
    answers::require(flags % 2 == 1, Refusal::InvalidBzImage)?;
    answers::require(setup <= len, Refusal::Underflow)?;
    answers::require(
        addresses::amount(highmem) <= start.0,
        Refusal::InvalidKernelStartAddress,
    )?;
    answers::require(room, Refusal::ReadBzImageCompressedKernel)
}

// What a load into a memory returns.
#[tactic(auto, unfolding(guest::specs::Loading::behind_tests), using(crate::proofs::PlanLaws::open_end))]
pub(crate) fn plan_load(
    image: &[u8],
    memory: &Memory,
    offset: Option<GuestAddress>,
    highmem: Option<GuestAddress>,
) -> Result<KernelLoaderResult, Refusal>
    ensures { result ≡ (plan_of image.now memory.now offset highmem).answer }
{
    validate(image, memory, offset, highmem)?;
    let load = kernel::load_address(image, offset);
    let bytes = kernel::kernel_size(image);
    let end = load.0 + bytes;
    Ok(KernelLoaderResult {
        kernel_load: load,
        kernel_end: GuestAddress(end),
        pvh_boot_cap: PvhBootCapability::PvhEntryIgnored,
    })
}
