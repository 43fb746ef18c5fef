// Copyright © 2020, Oracle and/or its affiliates.
//
// Copyright (c) 2019 Intel Corporation. All rights reserved.
// Copyright 2018 Amazon.com, Inc. or its affiliates. All Rights Reserved.
//
// Copyright 2017 The Chromium OS Authors. All rights reserved.
// Use of this source code is governed by a BSD-style license that can be
// found in the NOTICE file.
//
// SPDX-License-Identifier: Apache-2.0 AND BSD-3-Clause
//
// A command line put into guest memory. The tests come first, in their order; then the line is written where it has
// room.
#![tactic(auto, unfolding(answers::specs::Pick::pick, answers::specs::Tests::asked))]

ghost use Rattle.std.specs.Prelude.{◌≡◌};
ghost use Rattle.cmdline.specs.Held.{text_of};
ghost use Rattle.cmdline.specs.Text.{size_of};
ghost use Rattle.cmdline.specs.Writing.{bare};
ghost use Rattle.guest.specs.Room.{room};
ghost use Rattle.loader.specs.Lines.{plan_of, LineLoads};

use answers::Refusal;
use cmdline::{Cmdline, sizes, writing};
use guest::{GuestAddress, Map, Memory, lent, room};

// Is there room at an address for a line whose texts have these lengths, with its zero?
fn line_has_room(memory: &Memory, address: GuestAddress, boot_len: usize, init_len: usize) -> bool
    ensures { result ≡ room memory.now address.0 (size_of boot_len init_len) }
{
    // A size that passes 64 bits has no room, and `size` has another number for it.
    sizes::fits(memory.size as usize, boot_len, init_len)
        && room::has_room(memory, address, sizes::size(boot_len, init_len) as u64)
}

// The answer of loading the line of two texts into a memory: the tests, in their order.
pub fn plan_texts(
    memory: &Memory,
    guest_addr: GuestAddress,
    boot: &[u8],
    init: &[u8],
) -> Result<(), Refusal>
    ensures { result ≡ (plan_of (bare boot.now init.now) memory.now guest_addr.0).answer }
{
    lent::ask_memory(memory)?;
    writing::text_gate(boot, init).map_err(|_| Refusal::InvalidCommandLine)?;
    let has_room = line_has_room(memory, guest_addr, boot.len(), init.len());
    answers::require(has_room, Refusal::CommandLineOverflow)
}

// Writes the line of two texts and its zero to an address. The writer borrows the part of guest memory that begins
// there, and sees only that part.
pub fn load_texts(
    guest: &mut [u8],
    map: Map,
    guest_addr: GuestAddress,
    boot: &[u8],
    init: &[u8],
) -> Result<(), Refusal>
    ensures { LineLoads (bare boot.now init.now) guest_addr.0 map guest.old result guest.new }
{
    plan_texts(&Memory::of(guest, map), guest_addr, boot, init)?;
    let at = (guest_addr.0 as usize).min(guest.len());
    writing::write(&mut guest[at..], boot, init);
    Ok(())
}

// The same for a `Cmdline`.
pub fn load_cmdline(
    guest: &mut [u8],
    map: Map,
    guest_addr: GuestAddress,
    cmdline: &Cmdline,
) -> Result<(), Refusal>
    ensures { LineLoads (text_of cmdline.now) guest_addr.0 map guest.old result guest.new }
{
    load_texts(
        guest,
        map,
        guest_addr,
        cmdline.boot_text(),
        cmdline.init_text(),
    )
}
