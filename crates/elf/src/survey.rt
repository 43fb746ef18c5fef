// Copyright © 2020, Oracle and/or its affiliates.
// Copyright (c) 2019 Intel Corporation. All rights reserved.
// Copyright 2018 Amazon.com, Inc. or its affiliates. All Rights Reserved.
//
// Copyright 2017 The Chromium OS Authors. All rights reserved.
// Use of this source code is governed by a BSD-style license that can be
// found in the NOTICE file.
//
// SPDX-License-Identifier: Apache-2.0 AND BSD-3-Clause

#![tactic(auto, unfolding(answers::specs::Pick::pick, answers::specs::Tests::asked, guest::specs::Loading::behind_tests, guest::specs::Addresses::is_given, crate::specs::Survey::load_step, crate::specs::Survey::note_step, crate::specs::Survey::step_of, crate::specs::Survey::first_found, crate::specs::Survey::advanced), using(fields::proofs::RangesLaws::sum_within, fields::proofs::RangesLaws::sum_beyond))]

// The survey: each program header in turn, up to the first that refuses. Nothing is written before all have passed.
// `shift` and `h` stay two parameters: no fact joins them, and a struct would be filled before each call.
ghost use Rattle.std.specs.Prelude.{◌≡◌, ◌+◌, max};
ghost use Rattle.answers.specs.Tests.{pass, asked, asked_all};
ghost use Rattle.answers.specs.declared.Refusal.TheVariants.{MemoryOverflow};
ghost use Rattle.fields.specs.Ranges.{fits64};
ghost use Rattle.guest.specs.Room.{room};
ghost use Rattle.elf.specs.Header.{e_phoff_of};
ghost use Rattle.elf.specs.ProgramHeaders.{HeadersStand};
ghost use Rattle.elf.specs.Survey.{segment_tests, memory_tests, end_of, step_by, load_step, note_step};
ghost use Rattle.elf.specs.Survey.{step_of, first_found, advanced, blank, survey_from};
ghost use Rattle.elf.specs.Pouring.{plan_of};

use crate::program_headers::{PT_LOAD, PT_NOTE, ProgramHeader};
use crate::{header, notes, program_headers};
use answers::Refusal;
use fields::{numbers, ranges};
use guest::{
    GuestAddress, ImagePlace, KernelLoaderResult, Memory, PvhBootCapability, addresses, room,
};

// What a program header that does not refuse changes of the result.
#[derive(Clone, Copy)]
pub enum Effect {
    Nothing,
    EndsAt(GuestAddress),
    Pvh(PvhBootCapability),
}

// The end of a segment's memory, of this size from an address on.
fn end_step(at: u64, size: u64) -> Result<Effect, Refusal>
    ensures { result ≡ step_by (asked pass (fits64 at size) MemoryOverflow) (record { 0 = at + size }) }
{
    let end = at.checked_add(size).ok_or(Refusal::MemoryOverflow)?;
    Ok(Effect::EndsAt(GuestAddress(end)))
}

// A loadable segment with file bytes.
fn segment_step(
    image_len: u64,
    memory: &Memory,
    shift: GuestAddress,
    h: ProgramHeader,
) -> Result<Effect, Refusal>
    ensures { result ≡ step_by (asked_all pass (segment_tests image_len (room memory.now) shift.0 h))
        (end_of shift.0 h) }
{
    answers::require(
        h.p_filesz <= h.p_memsz,
        Refusal::InvalidProgramHeaderFileSize,
    )?;
    let at = shift
        .0
        .checked_add(h.p_paddr.0)
        .ok_or(Refusal::InvalidProgramHeaderAddress)?;
    answers::require(
        ranges::within(image_len, h.p_offset.0, h.p_filesz),
        Refusal::ReadKernelImage,
    )?;
    answers::require(
        room::has_room(memory, GuestAddress(at), h.p_filesz),
        Refusal::ReadKernelImage,
    )?;
    end_step(at, h.p_memsz)
}

// A loadable segment of memory only: nothing is read or written, and no room is needed.
fn memory_step(shift: GuestAddress, h: ProgramHeader) -> Result<Effect, Refusal>
    ensures { result ≡ step_by (asked_all pass (memory_tests shift.0 h)) (end_of shift.0 h) }
{
    let at = shift
        .0
        .checked_add(h.p_paddr.0)
        .ok_or(Refusal::InvalidProgramHeaderAddress)?;
    end_step(at, h.p_memsz)
}

// A loadable segment: with file bytes, of memory only, or empty.
fn load_step(
    image_len: u64,
    memory: &Memory,
    shift: GuestAddress,
    h: ProgramHeader,
) -> Result<Effect, Refusal>
    ensures { result ≡ load_step image_len (room memory.now) shift.0 h }
{
    if h.p_filesz == 0 {
        if h.p_memsz == 0 {
            return Ok(Effect::Nothing);
        }
        return memory_step(shift, h);
    }
    segment_step(image_len, memory, shift, h)
}

// A note header. With an offset it is not walked.
fn note_step(
    image: &[u8],
    offset: Option<GuestAddress>,
    h: ProgramHeader,
) -> Result<Effect, Refusal>
    ensures { result ≡ note_step image.now offset h }
{
    if offset.is_some() {
        return Ok(Effect::Pvh(PvhBootCapability::PvhEntryIgnored));
    }
    let note = notes::walk_notes(image, h.p_offset, h.p_filesz)?;
    Ok(Effect::Pvh(note.pvh))
}

// Any program header.
fn examine(
    image: &[u8],
    memory: &Memory,
    offset: Option<GuestAddress>,
    h: ProgramHeader,
) -> Result<Effect, Refusal>
    ensures { result ≡ step_of image.now (room memory.now) offset h }
{
    if h.p_type == PT_LOAD {
        let shift = GuestAddress(addresses::amount(offset));
        return load_step(image.len() as u64, memory, shift, h);
    }
    if h.p_type == PT_NOTE {
        return note_step(image, offset, h);
    }
    Ok(Effect::Nothing)
}

// PVH after one more note header: the first note found holds.
fn first_found(held: PvhBootCapability, said: PvhBootCapability) -> PvhBootCapability
    ensures { result ≡ first_found held said }
{
    match held {
        PvhBootCapability::PvhEntryPresent(_) => held,
        PvhBootCapability::PvhEntryNotPresent | PvhBootCapability::PvhEntryIgnored => said,
    }
}

// The result after one more program header.
fn advance(res: KernelLoaderResult, effect: Effect) -> KernelLoaderResult
    ensures { result ≡ advanced res effect }
{
    match effect {
        Effect::Nothing => res,
        Effect::EndsAt(end) => KernelLoaderResult {
            kernel_end: GuestAddress(res.kernel_end.0.max(end.0)),
            ..res
        },
        Effect::Pvh(said) => KernelLoaderResult {
            pvh_boot_cap: first_found(res.pvh_boot_cap, said),
            ..res
        },
    }
}

// The n program headers from e_phoff on, which lie in the image.
fn survey(
    image: &[u8],
    memory: &Memory,
    offset: Option<GuestAddress>,
    load: GuestAddress,
    e_phoff: ImagePlace,
    n: u64,
) -> Result<KernelLoaderResult, Refusal>
    requires { (e_phoff.0 ≡ e_phoff_of image.now) × HeadersStand image.now n }
    ensures { result ≡ survey_from n image.now (room memory.now) offset 0 (blank load) }
{
    let mut result = KernelLoaderResult {
        kernel_load: load,
        kernel_end: GuestAddress(0),
        pvh_boot_cap: PvhBootCapability::PvhEntryIgnored,
    };
    for i in 0..n {
        let h = program_headers::read_header(image, e_phoff, i);
        let effect = examine(image, memory, offset, h)?;
        result = advance(result, effect);
    }
    Ok(result)
}

// What a load returns.
pub(crate) fn answer_load(
    image: &[u8],
    memory: &Memory,
    offset: Option<GuestAddress>,
    highmem: Option<GuestAddress>,
) -> Result<KernelLoaderResult, Refusal>
    ensures { result ≡ (plan_of image.now memory.now offset highmem).answer }
{
    header::validate_header(image, memory, offset, highmem)?;
    let load = addresses::amount(offset) + numbers::read_u64(image, 24);
    let e_phoff = ImagePlace(numbers::read_u64(image, 32));
    let e_phnum = numbers::read_u16(image, 56);
    survey(image, memory, offset, GuestAddress(load), e_phoff, e_phnum)
}
