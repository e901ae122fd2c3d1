// Each row of the table of lines.
use crate::pieces::{Reading, first_wrong};

/// Scripts and their items. The number of each line stands at both ends of its range and past it.
static ROWS: [(&[u8], &str); 26] = [
    (
        b"add 0\nadd 01\nadd  1\nadd 1 \nADD 1\n add 1\nadd\nadd \nadd -1\nadd 1x\nadd\t1\nadd 1073741825\nadd 18446744073709551617\nadd 1\n\nadd 10\n \t\r\n \t\r\n \nflush\nadd 1073741824\n",
        "BadEvent 0; BadEvent 6; BadEvent 13; BadEvent 20; BadEvent 27; BadEvent 33; BadEvent 40; BadEvent 44; BadEvent 49; BadEvent 56; BadEvent 63; BadEvent 69; BadEvent 84; flush; ShortAdd 139; end",
    ),
    (
        b"delete d1\ndelete  d1\ndelete d1 \ndelete d 1\ndelete <d>\ndelete \ndelete\nDelete d1\ndelete *\ndelete \x7f\ndelete ~!\n",
        "delete d1; BadEvent 10; BadEvent 21; BadEvent 32; BadEvent 43; BadEvent 54; BadEvent 62; BadEvent 69; delete *; BadEvent 88; delete ~!; end",
    ),
    (
        b"flush\nflush \n flush\nFlush\nflushx\nflu\nflush\r\nflush\r\r\nfl\rush\nmerge\nmerge \nMERGE\nmerge 1\nend \nEnd\nend\nmerge\n",
        "flush; BadEvent 6; BadEvent 13; BadEvent 20; BadEvent 26; BadEvent 33; flush; BadEvent 44; BadEvent 52; merge; BadEvent 65; BadEvent 72; BadEvent 78; BadEvent 86; BadEvent 91; end",
    ),
    (
        b"turn 1\nturn 0\nturn 4294967295\nturn 4294967296\nturn 04294967295\nturn 00\nturn  1\nturn 1 \nturn\nturn \nturn 1 1\nturn x\nturn 99999999999999999999999999\nTurn 1\n",
        "turn 1; BadEvent 7; turn 4294967295; BadEvent 30; BadEvent 46; BadEvent 63; BadEvent 71; BadEvent 79; BadEvent 87; BadEvent 92; BadEvent 98; BadEvent 107; BadEvent 114; BadEvent 146; end",
    ),
    (
        b"open q 1 a\nopen q 0 a\nopen q 1000 a\nopen q 1001 a\nopen q 01 a\nopen q 1  a \nopen  q 1 a\nopen q  1 a\nopen q 1 \nopen q 1\nopen q\nopen\nopen  1 a\nOPEN q 1 a\nopen QuErY7 5 #1(A b)\nopen 7q 5 a\nopen q_ 5 a\nopen q 1 \xff\nopen q 1 \xc3\xa9\nopen q 1 \xc3\n",
        "open q 1 [a]; BadEvent 11; open q 1000 [a]; BadEvent 36; BadEvent 50; open q 1 [ a ]; BadEvent 75; BadEvent 87; open q 1 []; BadEvent 109; BadEvent 118; BadEvent 125; BadEvent 130; BadEvent 140; open query7 5 [#1(A b)]; BadEvent 173; BadEvent 185; BadEvent 197; open q 1 [é]; BadEvent 220; end",
    ),
    (
        b"step q 1\nstep q 0\nstep q 4294967295\nstep q 4294967296\nstep q 01\nstep  q 1\nstep q  1\nstep q 1 \nstep q\nstep\nstep Q7 2\nStep q 1\nstep q 1 2\n",
        "step q 1; BadEvent 9; step q 4294967295; BadEvent 36; BadEvent 54; BadEvent 64; BadEvent 74; BadEvent 84; BadEvent 94; BadEvent 101; step q7 2; BadEvent 116; BadEvent 125; end",
    ),
    (
        b"explain q 1\nexplain q 0\nexplain q 1000\nexplain q 1001\nexplain q 0999\nexplain q  1\nexplain q 1 \nexplain q\nexplain\nexplain QQ 7\nEXPLAIN q 1\n",
        "explain q 1; BadEvent 12; explain q 1000; BadEvent 39; BadEvent 54; BadEvent 69; BadEvent 82; BadEvent 95; BadEvent 105; explain qq 7; BadEvent 126; end",
    ),
    (
        b"show q\nshow Q\nshow  q\nshow q \nshow\nshow \nshow 1\nshow abcdefghijklmnopqrstuvwxyzABCDEF\nshow abcdefghijklmnopqrstuvwxyzabcdefg\nclose q\nclose QQ\nclose q \nclose\nCLOSE q\nclose q q\n",
        "show q; show q; BadEvent 14; BadEvent 22; BadEvent 30; BadEvent 35; BadEvent 41; show abcdefghijklmnopqrstuvwxyzabcdef; BadEvent 86; close q; close qq; BadEvent 142; BadEvent 151; BadEvent 157; BadEvent 165; end",
    ),
    (
        b"scan a\nscan \nscan\nscan  a \nscan #1(a b).x\nscan \xff\xfe\nscan \xe2\x82\xac\nscan a\xe2\x82\nSCAN a\nscan\ta\n",
        "scan [a]; scan []; BadEvent 13; scan [ a ]; scan [#1(a b).x]; BadEvent 42; scan [€]; BadEvent 59; BadEvent 68; BadEvent 75; end",
    ),
    (
        b"close  q\nclose q\r\nclose q_\nclose Q7z\nclose 7\nexplain  q 1\nexplain q 00\nexplain Q9 1000 \nexplain QQ 1000\nstep q 00\nstep q  4294967296\nstep Q1 4294967295\nturn 01\nopen q 00 a\nopen Q 1000  \nopen q 1 a \nEND\nend x\nmerge x\nend\nend\n",
        "BadEvent 0; close q; BadEvent 18; close q7z; BadEvent 37; BadEvent 45; BadEvent 58; BadEvent 71; explain qq 1000; BadEvent 104; BadEvent 114; step q1 4294967295; BadEvent 152; BadEvent 160; open q 1000 [ ]; open q 1 [a ]; BadEvent 198; BadEvent 202; BadEvent 208; end",
    ),
    (
        b"SHOW q\ndelete Wire-0301\nFLUSH\nflush x\nshow q q\nadd 1 1\nadd 1073741824 \nadd  1073741824\nadd 01073741824\nend\n",
        "BadEvent 0; delete Wire-0301; BadEvent 24; BadEvent 30; BadEvent 38; BadEvent 47; BadEvent 55; BadEvent 71; BadEvent 87; end",
    ),
    (
        b"scan \xed\xa0\x80\nscan \xc0\x80\nscan \xf4\x90\x80\x80\nscan \xf0\x9f\x98\x80\nopen q 1 \xe2\x82\nopen q 1 \xe2\x82\xac\nopen \xc3\xa9 1 a\nshow \xc3\xa9\ndelete \xc3\xa9\n",
        "BadEvent 0; BadEvent 9; BadEvent 17; scan [😀]; BadEvent 37; open q 1 [€]; BadEvent 62; BadEvent 74; BadEvent 82; end",
    ),
    (b"", "end"),
    (b"\n\r\n\n", "end"),
    (b"flush", "flush; end"),
    (b"flush\r", "flush; end"),
    (b"flush\r\nend\nflush\n", "flush; end"),
    (b"end", "end"),
    (b"end\r", "end"),
    (b"end\n\xff\xff", "end"),
    (b"\rflush\n", "BadEvent 0; end"),
    (
        b"unknown\n\n\xff\n \n",
        "BadEvent 0; BadEvent 9; BadEvent 11; end",
    ),
    (b"add 5", "ShortAdd 0; end"),
    (b"add 1\n", "ShortAdd 0; end"),
    (b"add 1\nx", "NotADoc { at: 0 }; end"),
    (
        b"add 1\nxflush\nadd 2\n\n\n\nend\nadd 3\n",
        "NotADoc { at: 0 }; flush; end",
    ),
];

#[test]
fn lines_of_the_table(rt: HostRuntime) {
    assert_eq!(rt; first_wrong(rt.alloc(), Reading::Script, &ROWS), None);
}
