//! The limits of the product: each stands here once, and in `specs/Limits.antt` for contracts.

/// How many tasks a board has at most.
pub const MOST_TASKS: usize = 10_000;

/// How many people a world has at most.
pub const MOST_PEOPLE: usize = 10_000;

/// How many boards a world has at most.
pub const MOST_BOARDS: usize = 10_000;

/// How many bytes a text of a task has at most, and the mask of a template.
pub const LONGEST_TEXT: usize = 16_384;

/// How many items an import has at most: tasks, or lines that aren't skipped.
pub const MOST_ITEMS: usize = 1_000;

/// How many bytes the body of a message has at most, and the line of a script.
pub const LONGEST_BODY: usize = 1_048_576;

/// How many instances a template gets at once at most.
pub const MOST_AT_ONCE: usize = 64;
