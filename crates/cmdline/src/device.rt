// Copyright 2018 Amazon.com, Inc. or its affiliates. All Rights Reserved.
//
// Portions Copyright 2017 The Chromium OS Authors. All rights reserved.
// Use of this source code is governed by a BSD-style license that can be
// found in the NOTICE file.
//
// SPDX-License-Identifier: Apache-2.0 AND BSD-3-Clause
//
// The text of a virtio device.
ghost use Rattle.std.specs.Prelude.{◌≤◌, length};
ghost use Rattle.cmdline.specs.Device.{size_text, front_text, id_text, device_text};
ghost use Rattle.slugs.specs.Stored.{Stored};

use crate::digits;
use slugs::buffers;

// A size in G, M or K by the largest that divides, else the bare number.
fn put_size(d: &mut [u8], at: usize, size: u64) -> usize
    ensures { Stored d.old at (size_text size) d.new result }
{
    for (unit, letter) in [(0x4000_0000, b'G'), (0x10_0000, b'M'), (0x400, b'K')] {
        if size % unit == 0 {
            let end = digits::put_decimal(d, at, size / unit);
            return buffers::put(d, end, &[letter]);
        }
    }
    digits::put_decimal(d, at, size)
}

// The text up to the number of the interrupt, at the start of d; the place after it.
fn put_front(d: &mut [u8], size: u64, baseaddr: u64, irq: u32) -> usize
    ensures { Stored d.old 0 (front_text size baseaddr irq) d.new result }
{
    let at = buffers::put(d, 0, b"virtio_mmio.device=");
    let at = put_size(d, at, size);
    let at = buffers::put(d, at, b"@0x");
    let at = digits::put_number(d, at, 16, baseaddr);
    let at = buffers::put(d, at, b":");
    digits::put_decimal(d, at, u64::from(irq))
}

// A colon and the ID, if given; the place after them.
fn put_id(d: &mut [u8], at: usize, id: Option<u32>) -> usize
    requires { at ≤ length d.old }
    ensures { (Stored d.old at (id_text id) d.new result) × (length (id_text id) ≤ 11) }
{
    match id {
        None => at,
        Some(number) => {
            let end = buffers::put(d, at, b":");
            digits::put_decimal(d, end, u64::from(number))
        }
    }
}

// The whole text, of at most 80 bytes, at the start of d; its length.
pub(crate) fn text(d: &mut [u8], size: u64, baseaddr: u64, irq: u32, id: Option<u32>) -> usize
    ensures { (Stored d.old 0 (device_text size baseaddr irq id) d.new result)
        × (length (device_text size baseaddr irq id) ≤ 80) }
{
    let at = put_front(d, size, baseaddr, irq);
    put_id(d, at, id)
}
