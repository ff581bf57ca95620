// The constant tables: rotation amounts, the squares as lists of the places of their ones, their inverses, and the starting pipes.
// Where code reads a table it reads the constant, which is folded into it. The function beside each constant says what the table is.
#![tactic(auto)]

mod width;

ghost use Rattle.std.specs.Prelude.{◌≡◌, [], ◌∷◌, map};
ghost use Rattle.quasigroup.specs.Tables.{left_sums, right_sums, amounts};
ghost use Rattle.quasigroup.specs.Product.{others};
ghost use Rattle.quasigroup.specs.Barred.{barred_left_sums};
ghost use Rattle.digest.specs.Start.{start224, start256, start384, start512};
ghost use Rattle.tables.specs.Places.{unxor_places, plus_places, minus_places};

pub use width::Width;

// The rotation amounts: two rows a width, over X and over Y.
pub const AMOUNTS: [[u32; 8]; 4] = [
    [0, 4, 8, 13, 17, 22, 24, 29],
    [0, 5, 9, 11, 15, 20, 25, 27],
    [0, 5, 15, 22, 31, 40, 50, 59],
    [0, 10, 19, 29, 36, 44, 48, 55],
];

pub fn amounts() -> [[u32; 8]; 4]
    ensures { result ≡ amounts }
{
    AMOUNTS
}

// The numbers of the words in sums 0 to 7 over X.
pub const LEFT_SUMS: [[usize; 5]; 8] = [
    [0, 1, 2, 4, 7],
    [0, 1, 3, 4, 7],
    [0, 1, 4, 6, 7],
    [2, 3, 5, 6, 7],
    [1, 2, 3, 5, 6],
    [0, 2, 3, 4, 5],
    [0, 1, 5, 6, 7],
    [2, 3, 4, 5, 6],
];

pub fn left_sums() -> [[usize; 5]; 8]
    ensures { result ≡ left_sums }
{
    LEFT_SUMS
}

// The numbers in LEFT_SUMS counted from the other end.
pub const BARRED_LEFT_SUMS: [[usize; 5]; 8] = [
    [7, 6, 5, 3, 0],
    [7, 6, 4, 3, 0],
    [7, 6, 3, 1, 0],
    [5, 4, 2, 1, 0],
    [6, 5, 4, 2, 1],
    [7, 5, 4, 3, 2],
    [7, 6, 2, 1, 0],
    [5, 4, 3, 2, 1],
];

pub fn barred_left_sums() -> [[usize; 5]; 8]
    ensures { result ≡ barred_left_sums }
{
    BARRED_LEFT_SUMS
}

// The numbers of the words in sums 0 to 7 over Y.
pub const RIGHT_SUMS: [[usize; 5]; 8] = [
    [0, 1, 2, 5, 7],
    [0, 1, 3, 4, 6],
    [0, 1, 2, 3, 5],
    [2, 3, 4, 6, 7],
    [0, 1, 3, 4, 5],
    [2, 4, 5, 6, 7],
    [1, 2, 5, 6, 7],
    [0, 3, 4, 6, 7],
];

pub fn right_sums() -> [[usize; 5]; 8]
    ensures { result ≡ right_sums }
{
    RIGHT_SUMS
}

// The numbers of the rotated sums in combinations 0 to 7 over X: those that the sum of the same number leaves out.
pub const LEFT_XORS: [[usize; 3]; 8] = [
    [3, 5, 6],
    [2, 5, 6],
    [2, 3, 5],
    [0, 1, 4],
    [0, 4, 7],
    [1, 6, 7],
    [2, 3, 4],
    [0, 1, 7],
];

pub fn left_xors() -> [[usize; 3]; 8]
    ensures { result ≡ map others left_sums }
{
    LEFT_XORS
}

// The same over Y.
pub const RIGHT_XORS: [[usize; 3]; 8] = [
    [3, 4, 6],
    [2, 5, 7],
    [4, 6, 7],
    [0, 1, 5],
    [2, 6, 7],
    [0, 1, 3],
    [0, 3, 4],
    [1, 2, 5],
];

pub fn right_xors() -> [[usize; 3]; 8]
    ensures { result ≡ map others right_sums }
{
    RIGHT_XORS
}

// The inverse of the XOR step of the left half: rotated sum i is the XOR of these combinations. A row of three ends in place 0 twice, which
// cancels. The right half's XOR step is undone by RIGHT_SUMS.
pub const LEFT_UNXORS: [[usize; 5]; 8] = [
    [3, 4, 7, 0, 0],
    [0, 1, 4, 6, 7],
    [0, 2, 3, 4, 5],
    [1, 2, 3, 4, 5],
    [0, 1, 6, 0, 0],
    [0, 1, 2, 0, 0],
    [3, 4, 5, 0, 0],
    [0, 1, 3, 6, 7],
];

pub fn left_unxors() -> [[usize; 5]; 8]
    ensures { result ≡ unxor_places }
{
    LEFT_UNXORS
}

// The inverse of the sums of the left half: word i is two fifths of all sums, with these two, less the five below. Both rows end in place 0
// equally often, which cancels. The right half adds none and takes away the three of RIGHT_XORS.
pub const LEFT_PLUS: [[usize; 2]; 8] = [
    [2, 5],
    [0, 0],
    [0, 0],
    [0, 0],
    [7, 0],
    [6, 7],
    [2, 0],
    [0, 0],
];

pub fn left_plus() -> [[usize; 2]; 8]
    ensures { result ≡ plus_places }
{
    LEFT_PLUS
}

// The five to take away.
pub const LEFT_MINUS: [[usize; 5]; 8] = [
    [0, 1, 6, 7, 7],
    [2, 3, 5, 0, 0],
    [1, 6, 7, 0, 0],
    [0, 6, 7, 0, 0],
    [2, 3, 4, 5, 0],
    [2, 2, 3, 4, 5],
    [0, 1, 6, 7, 0],
    [2, 4, 5, 0, 0],
];

pub fn left_minus() -> [[usize; 5]; 8]
    ensures { result ≡ minus_places }
{
    LEFT_MINUS
}

// 001, Table 1.3: words 0 to 7 and 8 to 15 of the starting pipe of size 224.
pub const START_224: [[u32; 8]; 2] = [
    [
        0x0001_0203,
        0x0405_0607,
        0x0809_0a0b,
        0x0c0d_0e0f,
        0x1011_1213,
        0x1415_1617,
        0x1819_1a1b,
        0x1c1d_1e1f,
    ],
    [
        0x2021_2223,
        0x2425_2627,
        0x2829_2a2b,
        0x2c2d_2e2f,
        0x3031_3233,
        0x2435_3637,
        0x3839_3a3b,
        0x3c3d_3e3f,
    ],
];

pub fn start_224() -> [[u32; 8]; 2]
    ensures { result ≡ start224.first ∷ start224.second ∷ [] }
{
    START_224
}

// 001, Table 1.4: words 0 to 7 and 8 to 15 of the starting pipe of size 256.
pub const START_256: [[u32; 8]; 2] = [
    [
        0x4041_4243,
        0x4445_4647,
        0x4849_4a4b,
        0x4c4d_4e4f,
        0x5051_5253,
        0x5455_5657,
        0x5859_5a5b,
        0x5c5d_5e5f,
    ],
    [
        0x6061_6263,
        0x6465_6667,
        0x6869_6a6b,
        0x6c6d_6e6f,
        0x7071_7273,
        0x7475_7677,
        0x7879_7a7b,
        0x7c7d_7e7f,
    ],
];

pub fn start_256() -> [[u32; 8]; 2]
    ensures { result ≡ start256.first ∷ start256.second ∷ [] }
{
    START_256
}

// 001, Table 1.5: words 0 to 7 and 8 to 15 of the starting pipe of size 384.
pub const START_384: [[u64; 8]; 2] = [
    [
        0x0001_0203_0405_0607,
        0x0809_0a0b_0c0d_0e0f,
        0x1011_1213_1415_1617,
        0x1819_1a1b_1c1d_1e1f,
        0x2021_2223_2425_2627,
        0x2829_2a2b_2c2d_2e2f,
        0x3031_3233_2435_3637,
        0x3839_3a3b_3c3d_3e3f,
    ],
    [
        0x4041_4243_4445_4647,
        0x4849_4a4b_4c4d_4e4f,
        0x5051_5253_5455_5657,
        0x5859_5a5b_5c5d_5e5f,
        0x6061_6263_6465_6667,
        0x6869_6a6b_6c6d_6e6f,
        0x7071_7273_7475_7677,
        0x7879_7a7b_7c7d_7e7f,
    ],
];

pub fn start_384() -> [[u64; 8]; 2]
    ensures { result ≡ start384.first ∷ start384.second ∷ [] }
{
    START_384
}

// 001, Table 1.6: words 0 to 7 and 8 to 15 of the starting pipe of size 512.
pub const START_512: [[u64; 8]; 2] = [
    [
        0x8081_8283_8485_8687,
        0x8889_8a8b_8c8d_8e8f,
        0x9091_9293_9495_9697,
        0x9899_9a9b_9c9d_9e9f,
        0xa0a1_a2a3_a4a5_a6a7,
        0xa8a9_aaab_acad_aeaf,
        0xb0b1_b2b3_b4b5_b6b7,
        0xb8b9_babb_bcbd_bebf,
    ],
    [
        0xc0c1_c2c3_c4c5_c6c7,
        0xc8c9_cacb_cccd_cecf,
        0xd0d1_d2d3_d4d5_d6d7,
        0xd8d9_dadb_dcdd_dedf,
        0xe0e1_e2e3_e4e5_e6e7,
        0xe8e9_eaeb_eced_eeef,
        0xf0f1_f2f3_f4f5_f6f7,
        0xf8f9_fafb_fcfd_feff,
    ],
];

pub fn start_512() -> [[u64; 8]; 2]
    ensures { result ≡ start512.first ∷ start512.second ∷ [] }
{
    START_512
}
