//! Header blocks of random cases, as hexadecimal digits.

/// The first fields of a request.
pub fn first_request(at: u32) -> &'static str {
    match at {
        // POST, http, /, with a field that joins the table, and without
        0 => "8386844001630164",
        1 => "838684",
        // GET, https, /index.html, and an authority in the Huffman code that joins the table
        2 => "828785418cf1e3c2e5f23a6ba0ab90f4ff",
        // POST, http, and a path that joins no table
        3 => "838604032f612f",
        // the table set to its least size, and back to its greatest
        4 => "203fe11f8386844001670168",
        // POST, http, /, and the newest entry of the table
        5 => "838684be",
        // CONNECT, with an authority and nothing else
        6 => "0207434f4e4e45435401026464",
        // CONNECT with a path, which is malformed
        _ => "0207434f4e4e4543540102646404012f",
    }
}

/// The first fields of a reply.
pub fn first_reply(at: u32) -> &'static str {
    match at {
        0 | 1 => "88",
        2 => "884001630164",
        3 => "8d",
        // 100 and 103, informational
        4 | 5 => "0803313030",
        6 => "4803313033",
        // none
        _ => "",
    }
}

/// The first fields of trailers.
pub fn last_block(at: u32) -> &'static str {
    match at {
        0 | 1 | 2 => "000b677270632d7374617475730130",
        3 | 4 => "400b677270632d7374617475730132",
        5 | 6 => "",
        // a pseudo-header, which is malformed
        _ => "84",
    }
}

/// A field that may stand in any list, or mostly one that may not.
pub fn field(at: u32) -> &'static str {
    match at {
        // an upper-case letter
        0 => "0001410162",
        // connection
        1 => "000a636f6e6e656374696f6e0178",
        // te with another value
        2 => "0002746504677a6970",
        // a path
        3 => "04012f",
        // an empty name
        4 => "00000162",
        // a line feed in a value
        5 => "000161020a0a",
        // a colon in a name
        6 => "0003613a620163",
        // transfer-encoding, by its index
        7 => "0f2a0178",
        // te with the one value that it may have
        8 | 9 => "0002746508747261696c657273",
        // a field that never joins a table
        10 | 11 => "1001650166",
        // content-length
        12 | 13 => "0f0d0131",
        // cache-control, in the Huffman code, which joins the table
        14 | 15 => "5886a8eb10649cbf",
        // custom-key and custom-value, in the Huffman code
        16 | 17 => "408825a849e95ba97d7f8925a849e95bb8e8b4bf",
        // the newest entry of the table
        18 => "be",
        19..=22 => "4001630164",
        23 | 24 => "0006636f6f6b696500",
        _ => "0001610162",
    }
}

/// What no block has.
pub fn fatal_field(at: u32) -> &'static str {
    match at {
        // index 0, and one past the tables
        0 => "80",
        1 => "ffff00",
        // a size update behind a field, and one that is too great
        2 => "20",
        3 => "3fe21f",
        // a string that is cut
        4 => "000561",
        // an integer that is cut, one that is too long, and one that is too great
        5 => "ff",
        6 => "ff808080808000",
        _ => "ffffffffff7f",
    }
}
