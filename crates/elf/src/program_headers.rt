// Copyright © 2020, Oracle and/or its affiliates.
// Copyright (c) 2019 Intel Corporation. All rights reserved.
// Copyright 2018 Amazon.com, Inc. or its affiliates. All Rights Reserved.
//
// Copyright 2017 The Chromium OS Authors. All rights reserved.
// Use of this source code is governed by a BSD-style license that can be
// found in the NOTICE file.
//
// SPDX-License-Identifier: Apache-2.0 AND BSD-3-Clause

// Program headers, read from the image.
ghost use Rattle.std.specs.Prelude.{◌≡◌, ◌+◌, ◌≤◌, length};
ghost use Rattle.elf.specs.Header.{e_phoff_of};
ghost use Rattle.elf.specs.ProgramHeaders.{header_place, header_at, header_of, header_in, segment_address};

use fields::{numbers, ranges};
use guest::{GuestAddress, ImagePlace};

// The types of program headers that a load reads: a loadable segment, and notes.
pub(crate) const PT_LOAD: u64 = 1;

pub(crate) const PT_NOTE: u64 = 4;

// The fields of a program header that a load reads.
#[derive(Clone, Copy)]
pub struct ProgramHeader {
    pub p_type: u64,
    pub p_offset: ImagePlace,
    pub p_paddr: GuestAddress,
    pub p_filesz: u64,
    pub p_memsz: u64,
}

// The program header at a place of the image. Its 56 bytes are a slice of known length, in which no field is tested
// for its bounds.
#[tactic(auto, unfolding(crate::specs::ProgramHeaders::header_at), using(crate::proofs::ProgramHeadersLaws::field_own))]
pub(crate) fn read_at(image: &[u8], at: ImagePlace) -> ProgramHeader
    requires { at.0 + 56 ≤ length image.now }
    ensures { result ≡ header_at image.now at.0 }
{
    let from = at.0 as usize;
    let header = &image[from..from + 56];
    ProgramHeader {
        p_type: numbers::read_u32(header, 0),
        p_offset: ImagePlace(numbers::read_u64(header, 8)),
        p_paddr: GuestAddress(numbers::read_u64(header, 24)),
        p_filesz: numbers::read_u64(header, 32),
        p_memsz: numbers::read_u64(header, 40),
    }
}

// Program header i of a load, if there is one and it lies in the image.
#[tactic(auto, unfolding(answers::specs::Pick::pick, crate::specs::ProgramHeaders::header_in), using(fields::proofs::RangesLaws::within_sum))]
pub(crate) fn nth(image: &[u8], i: u64) -> Option<ProgramHeader>
    ensures { result ≡ header_in image.now i }
{
    if numbers::read_u16(image, 56) <= i {
        return None;
    }
    let e_phoff = numbers::read_u64(image, 32);
    if !ranges::within(image.len() as u64, e_phoff, 56 * i + 56) {
        return None;
    }
    Some(read_at(image, ImagePlace(e_phoff + 56 * i)))
}

// The address of a segment, moved by shift, if it is loadable and its address is then a number of 64 bits.
#[tactic(auto, unfolding(answers::specs::Pick::pick, crate::specs::ProgramHeaders::segment_address), using(fields::proofs::RangesLaws::sum_within, fields::proofs::RangesLaws::sum_beyond))]
pub(crate) fn address(shift: GuestAddress, h: ProgramHeader) -> Option<GuestAddress>
    ensures { result ≡ segment_address shift.0 h }
{
    if h.p_type != PT_LOAD {
        return None;
    }
    shift.0.checked_add(h.p_paddr.0).map(GuestAddress)
}

// Program header i, which lies in the image, of those from e_phoff on.
pub(crate) fn read_header(image: &[u8], e_phoff: ImagePlace, i: u64) -> ProgramHeader
    requires { (e_phoff.0 ≡ e_phoff_of image.now) × (header_place image.now i + 56 ≤ length image.now) }
    ensures { result ≡ header_of image.now i }
{
    read_at(image, ImagePlace(e_phoff.0 + 56 * i))
}
