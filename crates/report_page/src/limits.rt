//! How full the limits were.

ghost use Rattle.std.specs.Prelude.{◌≡◌, ◌++◌, OnOk, string_bytes};
ghost use Rattle.report_page.specs.Limits.{look_of_limit, limit_use_text, category_text, limit_item, limit_items, limit_list, limits_shown};

use crate::escaped::{push_class, push_escaped, push_own};
use crate::values::{LimitRow, Look};
use std::alloc::AllocError;

/// How a limit looks: one that was full has a look of its own.
fn look_of(limit: &LimitRow<'_>) -> Look
    ensures { result ≡ look_of_limit limit.now }
{
    if limit.limit <= limit.most {
        Look::Ready
    } else {
        Look::Plain
    }
}

/// Adds how many ran at once, at most, of as many as a limit allows.
#[tactic(auto, unfolding(crate::specs::Limits::limit_use_text))]
fn push_use(text: &mut String, limit: &LimitRow<'_>) -> Result<(), AllocError>
    ensures { OnOk result (string_bytes text.new ≡ string_bytes text.old ++ limit_use_text limit.now) }
{
    write!(text, "{} of {}", limit.most, limit.limit)
}

/// Adds the category whose nodes' jobs a limit counts, where it counts no others.
fn push_category(text: &mut String, category: Option<&str>) -> Result<(), AllocError>
    ensures { OnOk result (string_bytes text.new ≡ string_bytes text.old ++ category_text category.entry) }
{
    match category {
        Some(category) => {
            text.push_str(" of ")?;
            push_escaped(text, category)
        }
        None => Ok(()),
    }
}

/// Adds the same with what the limit counts.
#[tactic(auto, unfolding(crate::specs::Limits::limit_item))]
fn push_limit(text: &mut String, limit: &LimitRow<'_>) -> Result<(), AllocError>
    ensures { OnOk result (string_bytes text.new ≡ string_bytes text.old ++ limit_item limit.now) }
{
    push_own(text, "<li class=\"")?;
    push_class(text, look_of(limit))?;
    push_own(text, "\"><b>")?;
    push_use(text, limit)?;
    push_own(text, "</b> ")?;
    push_escaped(text, limit.what)?;
    push_category(text, limit.category)?;
    push_own(text, " at once</li>\n")
}

/// Adds each of these limits.
fn push_items(text: &mut String, limits: &[LimitRow<'_>]) -> Result<(), AllocError>
    ensures { OnOk result (string_bytes text.new ≡ string_bytes text.old ++ limit_items limits.now) }
{
    for limit in limits {
        push_limit(text, limit)?;
    }
    Ok(())
}

/// Adds the list of limits.
#[tactic(auto, unfolding(crate::specs::Limits::limit_list))]
fn push_list(text: &mut String, limits: &[LimitRow<'_>]) -> Result<(), AllocError>
    ensures { OnOk result (string_bytes text.new ≡ string_bytes text.old ++ limit_list limits.now) }
{
    push_own(text, "<h2>Limits</h2>\n<ul>\n")?;
    push_items(text, limits)?;
    push_own(text, "</ul>\n")
}

/// Adds how full the limits were, where there are any.
pub(crate) fn push_limits(text: &mut String, limits: &[LimitRow<'_>]) -> Result<(), AllocError>
    ensures { OnOk result (string_bytes text.new ≡ string_bytes text.old ++ limits_shown limits.now) }
{
    if limits.is_empty() {
        return Ok(());
    }
    push_list(text, limits)
}
