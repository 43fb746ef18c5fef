// Copyright © 2020, Oracle and/or its affiliates.
// Copyright (c) 2019 Intel Corporation. All rights reserved.
// Copyright 2018 Amazon.com, Inc. or its affiliates. All Rights Reserved.
//
// Copyright 2017 The Chromium OS Authors. All rights reserved.
// Use of this source code is governed by a BSD-style license that can be
// found in the NOTICE file.
//
// SPDX-License-Identifier: Apache-2.0 AND BSD-3-Clause
#![tactic(auto, unfolding(answers::specs::Pick::pick, answers::specs::Tests::asked))]

// ELF kernels: the plan of a load, made of the image, the memory and the options only, and its parts: the segments of
// all program headers, in file order. The crate `loads` copies them if every header has passed.
ghost use Rattle.std.specs.Prelude.{◌≡◌};
ghost use Rattle.elf.specs.NoteWalk.{public_note};

use answers::Refusal;
use guest::{ImagePlace, PvhBootCapability, sizes};

mod header;
pub mod memory;
mod notes;
pub mod parts;
mod program_headers;
mod survey;

// What a note walk finds: the PVH entry, if there is one, and how many note headers it read.
#[derive(Clone, Copy)]
pub struct ElfNote {
    pub pvh: PvhBootCapability,
    pub headers: u64,
}

// The PVH entry that the notes of p_filesz bytes at p_offset give.
#[tactic(auto, unfolding(answers::specs::Pick::pick, answers::specs::Tests::asked, crate::specs::NoteWalk::public_note))]
pub fn parse_elf_note(image: &[u8], p_offset: ImagePlace, p_filesz: u64) -> Result<ElfNote, Refusal>
    ensures { result ≡ public_note image.now p_offset p_filesz }
{
    answers::require(sizes::is_allowed(image.len() as u64), Refusal::SliceTooLong)?;
    notes::walk_notes(image, p_offset, p_filesz)
}
