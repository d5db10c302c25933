//! The worked examples: command lines, each with its reply.
use std::alloc::{AllocError, Global};

/// One run on the empty object: the lines in order, a blank one with no reply.
pub const ROWS: [(&str, &str); 28] = [
    (
        r#"{"do":"apply","patches":[{"op":"add","path":["n"],"value":1}]}"#,
        r#"{"inverse":[{"op":"remove","path":["n"]}],"ok":"apply","patches":[{"op":"add","path":["n"],"value":1}],"root":2,"seq":1}"#,
    ),
    (
        r#"{"do":"stat"}"#,
        r#"{"nodes":2,"ok":"stat","redo":0,"seq":1,"sessions":0,"undo":1,"used":5}"#,
    ),
    (
        r#"{"do":"node","path":["n"]}"#,
        r#"{"node":null,"ok":"node"}"#,
    ),
    (r#"{"do":"node","path":[]}"#, r#"{"node":2,"ok":"node"}"#),
    (r#"{"do":"state"}"#, r#"{"ok":"state","value":{"n":1}}"#),
    (
        r#"{"do":"state","path":["n"]}"#,
        r#"{"ok":"state","value":1}"#,
    ),
    (
        r#"{"do":"state","path":["q"]}"#,
        r#"{"no":"state","why":"NoPath"}"#,
    ),
    (
        r#"{"do":"node","path":["n",0]}"#,
        r#"{"no":"node","why":"NoPath"}"#,
    ),
    (
        r#"{"do":"state","path":[1.5]}"#,
        r#"{"no":"line","why":"NotSafeInteger"}"#,
    ),
    (r#"{"do":"fly"}"#, r#"{"no":"line","why":"NotCommand"}"#),
    (
        r#"{"do":"apply","patches":[{"op":"add","path":["n"],"value":1}]}"#,
        r#"{"inverse":[],"ok":"apply","patches":[],"root":2,"seq":1}"#,
    ),
    (
        r#"{"do":"apply","patches":[{"op":"replace","path":["n"],"value":1}]}"#,
        r#"{"inverse":[],"ok":"apply","patches":[],"root":2,"seq":1}"#,
    ),
    (
        r#"{"do":"apply","patches":[{"op":"add","path":["m"],"value":5},{"op":"remove","path":["m"]}]}"#,
        r#"{"inverse":[],"ok":"apply","patches":[],"root":3,"seq":2}"#,
    ),
    (
        r#"{"do":"apply","patches":[{"op":"remove","path":["q"]}]}"#,
        r#"{"inverse":[],"ok":"apply","patches":[],"root":3,"seq":2}"#,
    ),
    (r#"{"do":"undo"}"#, r#"{"no":"line","why":"NotYet"}"#),
    (
        r#"{"do":"apply","patches":[{"op":"add","path":["__proto__"],"value":1}]}"#,
        r#"{"at":0,"no":"apply","why":"ReservedKey"}"#,
    ),
    (
        r#"{"do":"apply","patches":[{"op":"add","path":["a"],"value":1},{"op":"remove","path":["constructor"]}]}"#,
        r#"{"at":1,"no":"apply","why":"ReservedKey"}"#,
    ),
    (" ", ""),
    ("\t \r", ""),
    ("", ""),
    (
        r#"{"do":"apply","patches":[{"op":"add","path":["n"],"value":9007199254740992}]}"#,
        r#"{"no":"line","why":"NotSafeInteger"}"#,
    ),
    (
        r#"{"do":"apply","patches":[{"op":"add","path":["n"],"value":1.0}]}"#,
        r#"{"no":"line","why":"NotSafeInteger"}"#,
    ),
    (
        r#"{"do":"apply","patches":[{"op":"add","path":["n"],"value":-9007199254740991}]}"#,
        r#"{"inverse":[{"op":"replace","path":["n"],"value":1}],"ok":"apply","patches":[{"op":"replace","path":["n"],"value":-9007199254740991}],"root":4,"seq":3}"#,
    ),
    (
        r#"{"do":"apply","patches":[{"op":"add","path":["z"],"value":3},{"op":"remove","path":["n"]},{"op":"add","path":["a"],"value":2}]}"#,
        r#"{"inverse":[{"op":"remove","path":["a"]},{"op":"add","path":["n"],"value":-9007199254740991},{"op":"remove","path":["z"]}],"ok":"apply","patches":[{"op":"add","path":["a"],"value":2},{"op":"remove","path":["n"]},{"op":"add","path":["z"],"value":3}],"root":5,"seq":4}"#,
    ),
    ("nul", r#"{"no":"line","why":"NotJson"}"#),
    (r#"{"do":"apply"}"#, r#"{"no":"line","why":"NotCommand"}"#),
    (
        r#"{"do":"apply","patches":[]}"#,
        r#"{"inverse":[],"ok":"apply","patches":[],"root":5,"seq":4}"#,
    ),
    (
        r#"{"do":"apply","patches":[{"op":"add","path":["é\n"],"value":7}]}"#,
        r#"{"inverse":[{"op":"remove","path":["é\n"]}],"ok":"apply","patches":[{"op":"add","path":["é\n"],"value":7}],"root":6,"seq":5}"#,
    ),
];

/// Lines that have the form of a command that the host does not run yet, whatever their values are.
pub const NOT_YET: [&str; 22] = [
    r#"{"do":"dispatch","reducer":"f"}"#,
    r#"{"do":"dispatch","reducer":"f","action":{"$set":1}}"#,
    r#"{"do":"undo"}"#,
    r#"{"do":"redo"}"#,
    r#"{"do":"begin"}"#,
    r#"{"do":"edit","session":0,"reducer":""}"#,
    r#"{"do":"edit","session":9007199254740991,"reducer":"f","action":null}"#,
    r#"{"do":"finish","session":1}"#,
    r#"{"do":"finish","session":1,"how":"exact"}"#,
    r#"{"do":"finish","session":1,"how":"replay"}"#,
    r#"{"do":"drop","session":1}"#,
    r#"{"do":"renew"}"#,
    r#"{"do":"apply","patches":[{"op":"add","path":[],"value":1}]}"#,
    r#"{"do":"apply","patches":[{"op":"replace","path":["n"]}]}"#,
    r#"{"do":"apply","patches":[{"op":"remove","path":["n"],"value":1}]}"#,
    r#"{"do":"fly","do":"renew"}"#,
    r#"{"do":"begin","grant":"g"}"#,
    r#"{"do":"view","name":"done"}"#,
    r#"{"do":"pointer","patches":[{"op":"add","path":"/a~1b/0","value":0}]}"#,
    r#"{"do":"pointer","patches":[{"op":"add","path":"","value":1.5}]}"#,
    r#"{"do":"dispatch","reducer":"f","action":1.5}"#,
    r#"{"do":"apply","patches":[{"op":"add","path":[1.5],"value":{"$set":1}}]}"#,
];

/// JSON texts of no form.
pub const NO_COMMAND: [&str; 29] = [
    "null",
    "{}",
    r#"{"do":null}"#,
    r#"{"do":"line"}"#,
    r#"{"do":"Stat"}"#,
    r#"{"do":"dispatch"}"#,
    r#"{"do":"dispatch","reducer":1}"#,
    r#"{"do":"dispatch","reducer":"f","session":1}"#,
    r#"{"do":"undo","path":[]}"#,
    r#"{"do":"edit","session":1}"#,
    r#"{"do":"edit","session":1.0,"reducer":"f"}"#,
    r#"{"do":"edit","session":9007199254740992,"reducer":"f"}"#,
    r#"{"do":"finish","session":-1}"#,
    r#"{"do":"finish","session":1,"how":"Exact"}"#,
    r#"{"do":"drop","session":"1"}"#,
    r#"{"do":"drop","session":1,"how":"exact"}"#,
    r#"{"do":"state","path":null}"#,
    r#"{"do":"node","path":[[]]}"#,
    r#"{"do":"stat","path":[]}"#,
    r#"{"do":"apply","patches":{}}"#,
    r#"{"do":"apply","patches":[{"op":"set","path":["n"],"value":1}]}"#,
    r#"{"do":"apply","patches":[{"op":"add","path":"n","value":1}]}"#,
    r#"{"do":"apply","patches":[{"op":"add","path":["n"],"value":1,"at":0}]}"#,
    r#"{"do":"apply","patches":[],"path":[]}"#,
    r#"{"do":"begin","grant":1}"#,
    r#"{"do":"view"}"#,
    r#"{"do":"pointer","patches":[{"op":"test","path":"/a","value":1}]}"#,
    r#"{"do":"pointer","patches":[{"op":"add","path":"/a~2","value":1}]}"#,
    r#"{"do":"pointer","patches":[{"op":"replace","path":"/a"}]}"#,
];

/// The lines of the run, each with its LF.
pub fn lines(alloc: Global) -> Result<String, AllocError> {
    let mut text = String::new(alloc);
    for (line, _) in ROWS {
        text.push_str(line)?;
        text.push_str("\n")?;
    }
    Ok(text)
}

/// The replies of the run, each with its LF.
pub fn replies(alloc: Global) -> Result<String, AllocError> {
    let mut text = String::new(alloc);
    for (_, reply) in ROWS {
        if !reply.is_empty() {
            text.push_str(reply)?;
            text.push_str("\n")?;
        }
    }
    Ok(text)
}

/// The one word.
pub fn words(alloc: Global, list: &[&str]) -> Result<Vec<String>, AllocError> {
    let mut words = Vec::new(alloc);
    for word in list {
        words.push(String::from_str(alloc, word)?)?;
    }
    Ok(words)
}
