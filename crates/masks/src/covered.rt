// What each CRC covers, in listed order, and then its own three bits: places counted from 0 in the order of sending (5.2.5). That each list is that of the
// definitions of `channel` is proved where its masks are made.

// What kind 1's CRC covers, and CRC2..CRC0.
pub static SPEECH_CRC: [u8; 47] = [
    22, // D1
    23, // D2
    25, // D3
    26, // D4
    27, // D5
    28, // D6
    29, // D7
    30, // D8
    31, // D9
    33, // D10
    34, // D11
    35, // D12
    36, // D13
    37, // D14
    38, // D15
    39, // D16
    41, // D17
    42, // D18
    43, // D19
    44, // D20
    45, // D21
    46, // D22
    47, // D23
    49, // D24
    50, // D25
    51, // D26
    52, // D27
    53, // D28
    54, // D29
    55, // D30
    57, // D31
    58, // D32
    59, // D33
    60, // D34
    61, // D35
    62, // D36
    63, // D37
    65, // D38
    66, // D39
    67, // D40
    68, // D41
    69, // D42
    70, // D43
    71, // D44
    73, // CRC2
    74, // CRC1
    75, // CRC0
];

// What CRC1 of kind 6 in mode 4,75 covers, and the CRC.
pub static LOWER_475_CRC1: [u8; 39] = [
    17, // C1
    18, // C2
    19, // C3
    20, // C4
    21, // C5
    12, // D4
    13, // D5
    14, // D6
    15, // D7
    22, // D8
    23, // D9
    26, // D10
    27, // D11
    28, // D12
    29, // D13
    30, // D14
    31, // D15
    33, // D16
    34, // D17
    35, // D18
    36, // D19
    38, // D21
    39, // D22
    42, // D24
    43, // D25
    44, // D26
    45, // D27
    46, // D28
    47, // D29
    49, // D30
    50, // D31
    51, // D32
    69, // D48
    70, // D49
    71, // D50
    73, // D51
    74, // D52
    75, // D53
    76, // D54
];

// What CRC2 of kind 6 in mode 4,75 covers, and the CRC.
pub static LOWER_475_CRC2: [u8; 10] = [
    77, // D55
    78, // D56
    79, // D57
    81, // D58
    82, // D59
    83, // D60
    84, // D61
    98, // D73
    99, // D74
    100, // D75
];

// What CRC3 of kind 6 in mode 4,75 covers, and the CRC.
pub static LOWER_475_CRC3: [u8; 9] = [
    101, // D76
    102, // D77
    121, // D93
    122, // D94
    123, // D95
    124, // D96
    125, // D97
    126, // D98
    127, // D99
];

// What CRC4 of kind 6 in mode 4,75 covers, and the CRC.
pub static LOWER_475_CRC4: [u8; 5] = [
    129, // D100
    130, // D101
    143, // D113
    145, // D114
    146, // D115
];

// What CRC1 of kind 6 in mode 5,15 covers, and the CRC.
pub static LOWER_515_CRC1: [u8; 40] = [
    17, // C1
    18, // C2
    19, // C3
    20, // C4
    21, // C5
    14, // D6
    15, // D7
    22, // D8
    23, // D9
    26, // D10
    27, // D11
    28, // D12
    29, // D13
    30, // D14
    31, // D15
    33, // D16
    34, // D17
    35, // D18
    36, // D19
    37, // D20
    38, // D21
    42, // D24
    43, // D25
    44, // D26
    45, // D27
    46, // D28
    47, // D29
    49, // D30
    50, // D31
    51, // D32
    52, // D33
    53, // D34
    68, // D47
    69, // D48
    70, // D49
    71, // D50
    73, // D51
    74, // D52
    75, // D53
    76, // D54
];

// What CRC2 of kind 6 in mode 5,15 covers, and the CRC.
pub static LOWER_515_CRC2: [u8; 15] = [
    77, // D55
    78, // D56
    79, // D57
    81, // D58
    82, // D59
    83, // D60
    84, // D61
    99, // D74
    100, // D75
    101, // D76
    102, // D77
    103, // D78
    105, // D79
    106, // D80
    107, // D81
];

// What CRC3 of kind 6 in mode 5,15 covers, and the CRC.
pub static LOWER_515_CRC3: [u8; 10] = [
    108, // D82
    109, // D83
    124, // D96
    125, // D97
    126, // D98
    127, // D99
    129, // D100
    130, // D101
    131, // D102
    132, // D103
];

// What CRC4 of kind 6 in mode 5,15 covers, and the CRC.
pub static LOWER_515_CRC4: [u8; 10] = [
    133, // D104
    134, // D105
    149, // D118
    150, // D119
    151, // D120
    153, // D121
    154, // D122
    155, // D123
    156, // D124
    157, // D125
];

// What CRC1 of kind 6 in mode 5,90 covers, and the CRC.
pub static LOWER_590_CRC1: [u8; 37] = [
    17, // C1
    18, // C2
    19, // C3
    20, // C4
    21, // C5
    9, // D1
    10, // D2
    11, // D3
    12, // D4
    13, // D5
    14, // D6
    15, // D7
    22, // D8
    23, // D9
    26, // D10
    27, // D11
    28, // D12
    29, // D13
    30, // D14
    31, // D15
    33, // D16
    34, // D17
    45, // D27
    46, // D28
    47, // D29
    49, // D30
    50, // D31
    51, // D32
    52, // D33
    53, // D34
    69, // D48
    70, // D49
    71, // D50
    73, // D51
    74, // D52
    75, // D53
    76, // D54
];

// What kind 7's CRC1 covers, and the CRC.
pub static AMR670_CRC1: [u8; 38] = [
    17, // C1
    18, // C2
    19, // C3
    9, // D1
    10, // D2
    11, // D3
    12, // D4
    13, // D5
    14, // D6
    15, // D7
    20, // D8
    21, // D9
    22, // D10
    23, // D11
    25, // D12
    26, // D13
    27, // D14
    28, // D15
    29, // D16
    30, // D17
    34, // D20
    38, // D24
    42, // D27
    43, // D28
    44, // D29
    45, // D30
    46, // D31
    47, // D32
    49, // D33
    50, // D34
    66, // D49
    67, // D50
    68, // D51
    69, // D52
    70, // D53
    73, // D56
    74, // D57
    75, // D58
];

// What kind 8's CRC1 covers, and the CRC.
pub static AMR740_CRC1: [u8; 40] = [
    17, // C1
    18, // C2
    19, // C3
    3, // D1
    4, // D2
    5, // D3
    6, // D4
    7, // D5
    9, // D6
    10, // D7
    11, // D8
    12, // D9
    13, // D10
    14, // D11
    15, // D12
    20, // D13
    21, // D14
    22, // D15
    23, // D16
    25, // D17
    26, // D18
    27, // D19
    28, // D20
    30, // D22
    31, // D23
    32, // D24
    35, // D27
    36, // D28
    37, // D29
    38, // D30
    39, // D31
    40, // D32
    60, // D52
    61, // D53
    63, // D55
    64, // D56
    65, // D57
    67, // D59
    68, // D60
    69, // D61
];

// What CRC1 of kind 5 covers, in the classes that carry it, and the CRC.
pub static NO_SPEECH_CRC1: [u8; 59] = [
    17, // C1 of kind 5
    18, // C2 of kind 5
    19, // C3 of kind 5
    20, // C4 of kind 5
    21, // C5 of kind 5
    9, // D1
    10, // D2
    11, // D3
    12, // D4
    13, // D5
    14, // D6
    15, // D7
    22, // D8
    23, // D9
    26, // D10
    27, // D11
    28, // D12
    29, // D13
    30, // D14
    31, // D15
    33, // D16
    34, // D17
    35, // D18
    36, // D19
    37, // D20
    38, // D21
    39, // D22
    41, // D23
    42, // D24
    43, // D25
    44, // D26
    45, // D27
    46, // D28
    47, // D29
    49, // D30
    50, // D31
    51, // D32
    52, // D33
    53, // D34
    54, // D35
    55, // D36
    57, // D37
    58, // D38
    59, // D39
    60, // D40
    61, // D41
    62, // D42
    63, // D43
    65, // D44
    66, // D45
    67, // D46
    68, // D47
    69, // D48
    70, // D49
    71, // D50
    73, // D51
    74, // D52
    75, // D53
    76, // D54
];
