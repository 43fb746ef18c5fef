// Copyright (c) 2019 Intel Corporation. All rights reserved.
// Copyright 2018 Amazon.com, Inc. or its affiliates. All Rights Reserved.
//
// Copyright 2017 The Chromium OS Authors. All rights reserved.
// Use of this source code is governed by a BSD-style license that can be
// found in the NOTICE file.
//
// SPDX-License-Identifier: Apache-2.0 AND BSD-3-Clause

// What an image says of its kernel: where it lies in the image, and where it goes.
ghost use Rattle.std.specs.Prelude.{◌≡◌};
ghost use Rattle.bzimage.specs.Kernel.{Sectors, setup_size, kernel_size, start_of, load_of};

use crate::setup_header;
use fields::numbers;
use guest::GuestAddress;

// The sectors of the setup. An image that says 0 means 4.
#[tactic(auto, unfolding(answers::specs::Pick::pick, crate::specs::Kernel::sectors_of), using(crate::proofs::SetupHeaderLaws::at_setup_sects))]
fn sectors(image: &[u8]) -> u64
    ensures { Sectors image.now result }
{
    let said = numbers::byte_at(image, setup_header::place(setup_header::SETUP_SECTS).0, 0);
    if said == 0 { 4 } else { said }
}

// The setup's size: its sectors and the boot sector.
#[tactic(auto, unfolding(crate::specs::Kernel::setup_size))]
pub(crate) fn setup_size(image: &[u8]) -> u64
    ensures { result ≡ setup_size image.now }
{
    (sectors(image) + 1) * 512
}

// The kernel's size: what the image has after its setup.
#[tactic(auto, unfolding(crate::specs::Kernel::kernel_size))]
pub(crate) fn kernel_size(image: &[u8]) -> u64
    ensures { result ≡ kernel_size image.now }
{
    (image.len() as u64).saturating_sub(setup_size(image))
}

// The address at which the image would be loaded, as its header says.
#[tactic(auto, unfolding(crate::specs::Kernel::start_of), using(crate::proofs::SetupHeaderLaws::at_code32_start))]
pub(crate) fn code32_start(image: &[u8]) -> GuestAddress
    ensures { result ≡ start_of image.now }
{
    GuestAddress(numbers::read_u32(image, setup_header::place(setup_header::CODE32_START).0))
}

// The load address: the offset, if it is given, else the header's.
#[tactic(auto, unfolding(guest::specs::Addresses::given_or))]
pub(crate) fn load_address(image: &[u8], offset: Option<GuestAddress>) -> GuestAddress
    ensures { result ≡ load_of image.now offset }
{
    offset.unwrap_or(code32_start(image))
}
