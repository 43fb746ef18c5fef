// Copyright © 2020, Oracle and/or its affiliates.
// Copyright (c) 2019 Intel Corporation. All rights reserved.
// Copyright 2018 Amazon.com, Inc. or its affiliates. All Rights Reserved.
//
// Copyright 2017 The Chromium OS Authors. All rights reserved.
// Use of this source code is governed by a BSD-style license that can be
// found in the NOTICE file.
//
// SPDX-License-Identifier: Apache-2.0 AND BSD-3-Clause

// Sizes of notes are rounded up to 4.
ghost use Rattle.std.specs.Prelude.{◌≡◌};
ghost use Rattle.fields.specs.Rounding.{rounded_up};

// The least multiple of 4 that is not below n.
pub fn align_up(n: u32) -> u64
    ensures { result ≡ rounded_up n }
{
    u64::from(n).next_multiple_of(4)
}
