// Copyright (c) 2019 Intel Corporation. All rights reserved.
// Copyright 2018 Amazon.com, Inc. or its affiliates. All Rights Reserved.
//
// Copyright 2017 The Chromium OS Authors. All rights reserved.
// Use of this source code is governed by a BSD-style license that can be
// found in the NOTICE file.
//
// SPDX-License-Identifier: Apache-2.0 AND BSD-3-Clause
#![tactic(auto, unfolding(answers::specs::Pick::pick, answers::specs::Tests::asked))]

// Big zImage (bzImage) kernels: the plan of a load, made of the image, the memory and the options only, its one part,
// the kernel, and the setup header that goes with it. The crate `loads` copies the part.
pub mod header;
mod kernel;
pub mod parts;
mod plan;
pub mod protocol;
pub mod setup_header;
