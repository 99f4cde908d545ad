// The lines of results: a name, and a letter for each word.

pub const RESULTS: [(&[u8], &[u8], ()); 20] = [
    (b"ok", b"", ()),
    (b"none", b"", ()),
    (b"yes", b"", ()),
    (b"no", b"", ()),
    (b"panic", b"", ()),
    (b"refused", b"d", ()),
    (b"refused", b"dh", ()),
    (b"refused", b"dd", ()),
    (b"word", b"h", ()),
    (b"word", b"hd", ()),
    (b"mode", b"d", ()),
    (b"bytes", b"b", ()),
    (b"message", b"khfsb", ()),
    (b"message", b"khfsbd", ()),
    (b"message", b"khfsbdd", ()),
    (b"agree", b"hd", ()),
    (b"differ", b"hhhd", ()),
    (b"differ", b"hhhdahd", ()),
    (b"differ", b"hhhdud", ()),
    (b"unread", b"hd", ()),
];
