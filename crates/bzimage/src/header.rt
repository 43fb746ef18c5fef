// Copyright (c) 2019 Intel Corporation. All rights reserved.
// Copyright 2018 Amazon.com, Inc. or its affiliates. All Rights Reserved.
//
// Copyright 2017 The Chromium OS Authors. All rights reserved.
// Use of this source code is governed by a BSD-style license that can be
// found in the NOTICE file.
//
// SPDX-License-Identifier: Apache-2.0 AND BSD-3-Clause

// The setup header that goes with a load: a function of the image and the load address.
ghost use Rattle.std.specs.Prelude.{◌≡◌};
ghost use Rattle.bzimage.specs.Header.{header_of};

use crate::setup_header;
use fields::{copying, numbers};
use guest::GuestAddress;

// The header as it is read, bytes past the image as 0, with the load address's low 32 bits in `code32_start`.
#[tactic(auto, using(crate::proofs::SetupHeaderLaws::at_setup_sects, crate::proofs::SetupHeaderLaws::at_code32_start))]
pub fn header_with(image: &[u8], load: GuestAddress) -> [u8; 123]
    ensures { result ≡ header_of image.now load.0 }
{
    let mut header = [0u8; 123];
    let first = setup_header::place(setup_header::SETUP_SECTS).0;
    let from = (first as usize).min(image.len());
    copying::copy(&mut header, &image[from..]);
    let at = setup_header::place(setup_header::CODE32_START).0 - first;
    numbers::put_le(&mut header, at, 4, load.0);
    header
}
