//! JSON texts and what they read as: the compact text of the value, or the first fault.
use crate::answers::answer;
use std::test::Fail;

/// A text and the answer to it.
const CASES: &[(&str, &str)] = &[
    ("null", "null"),
    ("true", "true"),
    ("false", "false"),
    ("0", "0"),
    ("-7", "-7"),
    ("9007199254740991", "9007199254740991"),
    ("-9007199254740991", "-9007199254740991"),
    ("9007199254740992", "NotSafeInteger"),
    ("-9007199254740992", "NotSafeInteger"),
    ("1.0", "NotSafeInteger"),
    ("1e3", "NotSafeInteger"),
    ("-0", "NotSafeInteger"),
    ("0.5", "NotSafeInteger"),
    ("1e-400", "NotSafeInteger"),
    ("0e400", "NotSafeInteger"),
    ("18446744073709551616", "NotSafeInteger"),
    ("1e400", "NotJson"),
    ("01", "NotJson"),
    ("", "NotJson"),
    ("\"a", "NotJson"),
    ("\"\\u00e9\\n\"", "\"é\\n\""),
    ("\"\\ud800\"", "NotJson"),
    ("\"\\ud83d\\ude00\"", "\"😀\""),
    ("[]", "[]"),
    ("[1,[2],\"x\",null]", "[1,[2],\"x\",null]"),
    ("[1,]", "NotJson"),
    ("{}", "{}"),
    ("{\"b\":1,\"a\":2}", "{\"a\":2,\"b\":1}"),
    ("{\"a\":1,\"a\":2}", "{\"a\":2}"),
    ("{\"a\":1.5,\"a\":2}", "{\"a\":2}"),
    ("{\"$map\":[]}", "{\"$map\":[]}"),
    (
        "{\"$map\":[[\"1\",\"text\"],[1,\"int\"]]}",
        "{\"$map\":[[1,\"int\"],[\"1\",\"text\"]]}",
    ),
    (
        "{\"$map\":[[\"b\",1],[\"a\",2],[true,3],[false,4],[null,5],[2,6],[-2,7]]}",
        "{\"$map\":[[null,5],[false,4],[true,3],[-2,7],[2,6],[\"a\",2],[\"b\",1]]}",
    ),
    ("{\"$map\":[[1,2],[1,3]]}", "DuplicateKey"),
    ("{\"$map\":[[1,2,3]]}", "BadTag"),
    ("{\"$map\":[[1]]}", "BadTag"),
    ("{\"$map\":[[[],1]]}", "BadTag"),
    ("{\"$map\":[1]}", "BadTag"),
    ("{\"$map\":{}}", "BadTag"),
    ("{\"$map\":1}", "BadTag"),
    ("{\"$map\":[],\"x\":1}", "{\"$map\":[],\"x\":1}"),
    ("{\"$map\":[[1.5,[]]]}", "NotSafeInteger"),
    ("{\"$map\":[[1,1.5],[1,2]]}", "NotSafeInteger"),
    ("{\"$map\":[[1,2],[1,1.5]]}", "DuplicateKey"),
    ("{\"$set\":[]}", "{\"$set\":[]}"),
    (
        "{\"$set\":[\"b\",\"a\",true,false,null,2,-2]}",
        "{\"$set\":[null,false,true,-2,2,\"a\",\"b\"]}",
    ),
    ("{\"$set\":[1,1]}", "DuplicateKey"),
    ("{\"$set\":[[1]]}", "BadTag"),
    ("{\"$set\":[1.5,[]]}", "BadTag"),
    ("{\"$set\":{}}", "BadTag"),
    ("{\"$set\":[1.5]}", "NotSafeInteger"),
    ("{\"$set\":[],\"$map\":[]}", "{\"$map\":[],\"$set\":[]}"),
    ("{\"$obj\":{}}", "{}"),
    ("{\"$obj\":{\"$map\":1}}", "{\"$obj\":{\"$map\":1}}"),
    ("{\"$obj\":{\"a\":1}}", "{\"a\":1}"),
    (
        "{\"$obj\":{\"$obj\":{\"$set\":[]}}}",
        "{\"$obj\":{\"$obj\":{\"$set\":[]}}}",
    ),
    ("{\"$obj\":{\"$obj\":1}}", "{\"$obj\":{\"$obj\":1}}"),
    ("{\"$obj\":[]}", "BadTag"),
    ("{\"$obj\":1}", "BadTag"),
    (
        "{\"m\":{\"$map\":[[\"1\",\"text\"],[1,\"int\"]]},\"s\":{\"$set\":[null]}}",
        "{\"m\":{\"$map\":[[1,\"int\"],[\"1\",\"text\"]]},\"s\":{\"$set\":[null]}}",
    ),
    ("{\"__proto__\":1}", "ReservedKey"),
    ("{\"constructor\":1}", "ReservedKey"),
    ("{\"prototype\":1}", "ReservedKey"),
    ("{\"$obj\":{\"__proto__\":1}}", "ReservedKey"),
    (
        "{\"$map\":[[\"__proto__\",1]]}",
        "{\"$map\":[[\"__proto__\",1]]}",
    ),
    (
        "{\"$set\":[\"constructor\"]}",
        "{\"$set\":[\"constructor\"]}",
    ),
    ("{\"b\":1.5,\"a\":{\"$set\":[1,1]}}", "DuplicateKey"),
    ("[1.5,{\"$set\":1}]", "NotSafeInteger"),
    ("[{\"$set\":1},1.5]", "BadTag"),
];

#[test]
fn texts_are_answered(rt: HostRuntime) -> Result<(), Fail> {
    for (text, want) in CASES {
        let got = answer(rt.alloc(), text.as_bytes())?;
        assert_eq!(rt; got.as_str(), *want, "{text}");
    }
    Ok(())
}

#[test]
fn bytes_that_are_no_text(rt: HostRuntime) -> Result<(), Fail> {
    let got = answer(rt.alloc(), &[34, 255, 34])?;
    assert_eq!(rt; got.as_str(), "NotJson");
    Ok(())
}
