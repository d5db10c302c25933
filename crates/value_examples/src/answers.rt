use plain_apply::{ApplyFault, apply_plain};
use std::alloc::{AllocError, Global};
use value_json::{
    JsonFault, JsonWhy, read_patches, read_path, read_value, write_patches, write_value,
};
use values::{Key, Limit, PatchWhy, Path, Val};

/// The compact text of the value that the bytes are, or the name of their first fault.
pub fn answer(alloc: Global, bytes: &[u8]) -> Result<String, AllocError> {
    match read_value(alloc, bytes) {
        Ok(value) => text_of(alloc, &value),
        Err(JsonFault::Memory) => Err(AllocError),
        Err(JsonFault::Refused(why)) => String::from_str(alloc, json_name(why)),
    }
}

/// The compact text of the patches that the bytes are, or the name of their first fault.
pub fn patches_answer(alloc: Global, bytes: &[u8]) -> Result<String, AllocError> {
    match read_patches(alloc, bytes) {
        Ok(patches) => {
            let text = write_patches(alloc, &patches)?;
            String::from_str(alloc, text.as_str())
        }
        Err(JsonFault::Memory) => Err(AllocError),
        Err(JsonFault::Refused(why)) => String::from_str(alloc, json_name(why)),
    }
}

/// The steps of the path that the bytes are, with their kinds, or the name of the first fault.
pub fn path_answer(alloc: Global, bytes: &[u8]) -> Result<String, AllocError> {
    match read_path(alloc, bytes) {
        Ok(path) => steps_text(alloc, &path),
        Err(JsonFault::Memory) => Err(AllocError),
        Err(JsonFault::Refused(why)) => String::from_str(alloc, json_name(why)),
    }
}

/// The compact text of the state with the patches made, or the position of the first that is refused, and why.
pub fn patched(alloc: Global, state: &[u8], patches: &[u8]) -> Result<String, AllocError> {
    let Ok(state) = read_value(alloc, state) else {
        return String::from_str(alloc, "no state");
    };
    let Ok(patches) = read_patches(alloc, patches) else {
        return String::from_str(alloc, "no patches");
    };
    match apply_plain(alloc, &state, &patches) {
        Ok(value) => text_of(alloc, &value),
        Err(ApplyFault::Memory) => Err(AllocError),
        Err(ApplyFault::Refused { at, why }) => {
            let why = why_name(why);
            format!(in alloc; "{at} {why}")
        }
    }
}

fn text_of(alloc: Global, value: &Val) -> Result<String, AllocError> {
    let text = write_value(alloc, value)?;
    String::from_str(alloc, text.as_str())
}

fn steps_text(alloc: Global, path: &Path) -> Result<String, AllocError> {
    let mut out = String::new(alloc);
    for (i, step) in path.as_slice().iter().enumerate() {
        if i > 0 {
            out.push_str(", ")?;
        }
        out.push_str(step_text(alloc, step)?.as_str())?;
    }
    Ok(out)
}

fn step_text(alloc: Global, step: &Key) -> Result<String, AllocError> {
    match step {
        Key::Null => String::from_str(alloc, "null"),
        Key::Bool(false) => String::from_str(alloc, "false"),
        Key::Bool(true) => String::from_str(alloc, "true"),
        Key::Int(n) => {
            let number = n.get();
            format!(in alloc; "integer {number}")
        }
        Key::Text(text) => {
            let letters = text.as_str();
            format!(in alloc; "text {letters}")
        }
    }
}

fn json_name(why: JsonWhy) -> &'static str {
    match why {
        JsonWhy::NotJson => "NotJson",
        JsonWhy::NotSafeInteger => "NotSafeInteger",
        JsonWhy::TextTooLong => "TextTooLong",
        JsonWhy::BadTag => "BadTag",
        JsonWhy::DuplicateKey => "DuplicateKey",
        JsonWhy::NotPatches => "NotPatches",
        JsonWhy::NotPath => "NotPath",
        JsonWhy::Limit(limit) => limit_name(limit),
    }
}

fn limit_name(limit: Limit) -> &'static str {
    match limit {
        Limit::NotContainer => "NotContainer",
        Limit::TooDeep => "TooDeep",
        Limit::TooBig => "TooBig",
        Limit::KeyTooLong => "KeyTooLong",
        Limit::ReservedKey => "ReservedKey",
    }
}

fn why_name(why: PatchWhy) -> &'static str {
    match why {
        PatchWhy::NoPath => "NoPath",
        PatchWhy::BadKey => "BadKey",
        PatchWhy::SetReplace => "SetReplace",
        PatchWhy::Hole => "Hole",
        PatchWhy::UndefinedWrite => "UndefinedWrite",
        PatchWhy::ReservedKey => "ReservedKey",
        PatchWhy::KeyTooLong => "KeyTooLong",
    }
}
