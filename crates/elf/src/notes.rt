// Copyright © 2020, Oracle and/or its affiliates.
// Copyright (c) 2019 Intel Corporation. All rights reserved.
// Copyright 2018 Amazon.com, Inc. or its affiliates. All Rights Reserved.
//
// Copyright 2017 The Chromium OS Authors. All rights reserved.
// Use of this source code is governed by a BSD-style license that can be
// found in the NOTICE file.
//
// SPDX-License-Identifier: Apache-2.0 AND BSD-3-Clause

// The notes of a program header, walked until the PVH note is found.
ghost use Rattle.std.specs.Prelude.{◌≡◌, ◌+◌, ◌≤◌, length};
ghost use Rattle.answers.specs.Tests.{pass, asked_all};
ghost use Rattle.reading.specs.Notes.{note_header_of};
ghost use Rattle.elf.specs.NoteWalk.{turn_by, turn_at, entry_of};
ghost use Rattle.elf.specs.declared.notes.Turn.TheVariants.{Found, Skip};
ghost use Rattle.elf.specs.Notes.{is_wanted, pvh_tests, size_tests, note_length, note_with, descriptor_at};

use crate::ElfNote;
use answers::Refusal;
use fields::{numbers, ranges, rounding, tags};
use guest::{GuestAddress, ImagePlace, PvhBootCapability, PvhNote};
use reading::NoteHeader;

// What the walk does after a note: it ends at the PVH note, with this descriptor, or goes on so many bytes further.
// Not an `Option`: `Skip` carries the number of bytes to the next note.
#[derive(Clone, Copy)]
pub enum Turn {
    Found(ImagePlace, u64),
    Skip(u64),
}

// A note that is not the PVH note: both its sizes are tested, which then fit 32 bits, and it is passed over.
fn skip(note: NoteHeader) -> Result<Turn, Refusal>
    ensures { result ≡ turn_by (asked_all pass (size_tests note)) (Skip (note_length note)) }
{
    answers::require(note.n_namesz <= 0xFFFF_FFFC, Refusal::Overflow)?;
    answers::require(note.n_descsz <= 0xFFFF_FFFC, Refusal::Overflow)?;
    let name = rounding::align_up(note.n_namesz as u32);
    let desc = rounding::align_up(note.n_descsz as u32);
    Ok(Turn::Skip(12 + name + desc))
}

// The PVH note, whose header is at an offset of the image: the size of its descriptor, then its first four bytes.
fn pvh_note(image: &[u8], at: ImagePlace, size: u64) -> Result<Turn, Refusal>
    requires { (at.0 + 16 ≤ length image.now) × (size ≡ (note_header_of image.now at.0).n_descsz) }
    ensures { result ≡ turn_by (asked_all pass (pvh_tests image.now at.0))
        (Found (record { 0 = descriptor_at at.0 }) size) }
{
    answers::require(4 <= size, Refusal::InvalidPvhNote)?;
    let place = at.0 + 16;
    answers::require(
        ranges::within(image.len() as u64, place, 4),
        Refusal::ReadNoteHeader,
    )?;
    Ok(Turn::Found(ImagePlace(place), size))
}

// Do a note's type and name size say that its name has to be looked at?
#[tactic(auto, unfolding(answers::specs::Pick::pick, crate::specs::Notes::is_wanted))]
fn is_wanted(note: NoteHeader) -> bool
    ensures { result ≡ is_wanted note }
{
    note.n_type == 18 && note.n_namesz == 4
}

// The note whose header is at an offset of the image. Its 12 bytes are a slice of known length, in which no field is
// tested for its bounds.
#[tactic(auto, unfolding(answers::specs::Pick::pick, answers::specs::Tests::asked), using(crate::proofs::NotesLaws::note_within, crate::proofs::NotesLaws::turn_other, crate::proofs::NotesLaws::turn_unnamed, crate::proofs::NotesLaws::turn_named, crate::proofs::NotesLaws::turn_pvh, fields::proofs::RangesLaws::sum_within, fields::proofs::RangesLaws::within_sum))]
fn note_at(image: &[u8], at: u64) -> Result<Turn, Refusal>
    requires { at + 12 ≤ length image.now }
    ensures { result ≡ turn_at image.now at }
{
    let from = at as usize;
    let note = reading::notes::read_note_header(&image[from..from + 12], ImagePlace(0));
    if !is_wanted(note) {
        return skip(note);
    }
    answers::require(
        ranges::within(image.len() as u64, at + 12, 4),
        Refusal::ReadNoteHeader,
    )?;
    if !tags::is_tag(image, at + 12, b"Xen\0") {
        return skip(note);
    }
    pvh_note(image, ImagePlace(at), note.n_descsz)
}

// The PVH note with this descriptor, whose first four bytes are the number of the entry.
fn entry(image: &[u8], place: ImagePlace, size: u64) -> PvhNote
    ensures { result ≡ note_with image.now place size }
{
    PvhNote {
        entry: GuestAddress(numbers::read_u32(image, place.0)),
        place,
        size,
    }
}

// Note after note, from p_offset on, while fewer than p_filesz bytes are read: the PVH entry, if one is found, and the
// headers read. Each note has its own length, so that there is no range to go over.
pub(crate) fn walk_notes(
    image: &[u8],
    p_offset: ImagePlace,
    p_filesz: u64,
) -> Result<ElfNote, Refusal>
    ensures { result ≡ entry_of image.now p_offset p_filesz }
{
    let from = p_offset.0;
    let len = image.len() as u64;
    let mut read: u64 = 0;
    let mut headers: u64 = 0;
    while read < p_filesz {
        answers::require(
            ranges::within(len, from, read + 12),
            Refusal::ReadNoteHeader,
        )?;
        headers += 1;
        let turn = note_at(image, from + read)?;
        match turn {
            Turn::Found(place, size) => {
                return Ok(ElfNote {
                    pvh: PvhBootCapability::PvhEntryPresent(entry(image, place, size)),
                    headers,
                });
            }
            Turn::Skip(n) => {
                read += n;
            }
        }
    }
    Ok(ElfNote {
        pvh: PvhBootCapability::PvhEntryNotPresent,
        headers,
    })
}
