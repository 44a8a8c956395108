//! The small JSON objects that are the bodies of calls. Each has exactly the members that are named here.
ghost use Rattle.std.specs.Prelude.{◌≡◌, codes, option_map};
ghost use Rattle.serde_json.specs.View.{view};
ghost use Rattle.tb_http.specs.Body as bodies;

use serde_json::Value;
use tb_task::TaskId;

/// A person to be added.
#[derive(Clone, Copy, Debug, PartialEq, Eq)]
pub struct PersonBody<'a> {
    pub name: &'a str,
    pub key: &'a str,
}

/// The sender's own keys: the one that is left, and the one that follows.
#[derive(Clone, Copy, Debug, PartialEq, Eq)]
pub struct OwnKeyBody<'a> {
    pub old: &'a str,
    pub key: &'a str,
}

/// Whose role is set, and the word of that role, `owner`, `member` or `reader`, or none.
#[derive(Clone, Copy, Debug, PartialEq, Eq)]
pub struct RoleBody<'a> {
    pub member: &'a str,
    pub role: Option<&'a str>,
}

// An object of so many members.
#[tactic(auto, using(crate::proofs::BodyLemmas::members_counted))]
fn has_members(value: &Value, count: usize) -> bool
    ensures { result ≡ bodies.has_members count (view value.now) }
{
    match value.as_object() {
        Some(members) => members.len() == count,
        None => false,
    }
}

// The text of the member of this name.
fn text_at<'a>(value: &'a Value, name: &str) -> Option<&'a str>
    ensures { option_map (λ text. text.now) result ≡ bodies.text_at name.now (view value.now) }
{
    value.get(name)?.as_str()
}

// The whole number of the member of this name.
fn number_at(value: &Value, name: &str) -> Option<u64>
    ensures { result ≡ bodies.number_at name.now (view value.now) }
{
    value.get(name)?.as_u64()
}

/// The person that a body adds.
pub fn read_person(value: &Value) -> Option<PersonBody<'_>>
    ensures { option_map (λ body. (body.name.now, body.key.now)) result
        ≡ bodies.person_in (view value.now) }
{
    if !has_members(value, 2) {
        return None;
    }
    let name = text_at(value, "name")?;
    let key = text_at(value, "key")?;
    Some(PersonBody { name, key })
}

/// The sender's own keys that a body names.
pub fn read_own_key(value: &Value) -> Option<OwnKeyBody<'_>>
    ensures { option_map (λ body. (body.old.now, body.key.now)) result
        ≡ bodies.own_key_in (view value.now) }
{
    if !has_members(value, 2) {
        return None;
    }
    let old = text_at(value, "old")?;
    let key = text_at(value, "key")?;
    Some(OwnKeyBody { old, key })
}

// A key, or null for none.
fn key_or_null(value: &Value) -> Option<Option<&str>>
    ensures { option_map (λ key. option_map (λ text. text.now) key) result
        ≡ bodies.key_or_null (view value.now) }
{
    match value {
        Value::Null => Some(None),
        Value::String(key) => Some(Some(key.as_str())),
        _ => None,
    }
}

/// The key that a body gives a person, or none where it takes the key.
pub fn read_key(value: &Value) -> Option<Option<&str>>
    ensures { option_map (λ key. option_map (λ text. text.now) key) result
        ≡ bodies.key_in (view value.now) }
{
    if !has_members(value, 1) {
        return None;
    }
    key_or_null(value.get("key")?)
}

/// The title that a body gives a board.
pub fn read_title(value: &Value) -> Option<&str>
    ensures { option_map (λ text. text.now) result ≡ bodies.title_in (view value.now) }
{
    if !has_members(value, 1) {
        return None;
    }
    text_at(value, "title")
}

fn is_role(word: &str) -> bool
    ensures { result ≡ bodies.is_role word.now }
{
    word == "owner" || word == "member" || word == "reader"
}

// A role's word, or null for none.
fn role_word(value: &Value) -> Option<Option<&str>>
    ensures { option_map (λ word. option_map (λ text. text.now) word) result
        ≡ bodies.role_word (view value.now) }
{
    match value {
        Value::Null => Some(None),
        Value::String(word) if is_role(word.as_str()) => Some(Some(word.as_str())),
        _ => None,
    }
}

/// Whose role a body sets, and to which.
pub fn read_role(value: &Value) -> Option<RoleBody<'_>>
    ensures { option_map (λ body. (body.member.now, option_map (λ text. text.now) body.role)) result
        ≡ bodies.role_in (view value.now) }
{
    if !has_members(value, 2) {
        return None;
    }
    let member = text_at(value, "member")?;
    let role = role_word(value.get("role")?)?;
    Some(RoleBody { member, role })
}

/// How many instances ahead a body lets a board look: any number.
pub fn read_ahead(value: &Value) -> Option<u64>
    ensures { result ≡ bodies.ahead_in (view value.now) }
{
    if !has_members(value, 1) {
        return None;
    }
    number_at(value, "ahead")
}

/// The text of the annotation that a body adds or removes.
pub fn read_description(value: &Value) -> Option<&str>
    ensures { option_map (λ text. text.now) result ≡ bodies.description_in (view value.now) }
{
    if !has_members(value, 1) {
        return None;
    }
    text_at(value, "description")
}

/// The task to which a body adds or removes a link.
pub fn read_link(value: &Value) -> Option<TaskId>
    ensures { result ≡ bodies.link_in (view value.now) }
{
    if !has_members(value, 1) {
        return None;
    }
    TaskId::read(text_at(value, "on")?)
}

/// Whether a body is an object without members, as that of a call that says no more than its path.
pub fn is_empty_object(value: &Value) -> bool
    ensures { result ≡ bodies.has_members 0 (view value.now) }
{
    has_members(value, 0)
}
