//! The fixed parts of the picture: its style and its legend.

use crate::signs::Sign;

/// The letters, lines and colours of a picture, on a light ground and on a dark one, and its two hatchings.
pub(crate) const STYLE: &str = "\
<style>text{font:12px ui-monospace,'DejaVu Sans Mono',Menlo,Consolas,monospace;\
fill:currentColor}.b{font-weight:700}\n\
.big{font-size:17px}.lost{text-decoration:line-through}\n\
.l{fill:none;stroke:currentColor;stroke-width:1.6;stroke-linejoin:round}\
.f{fill:currentColor}.o{stroke:currentColor;stroke-width:2}\n\
.again{stroke-width:1;stroke-dasharray:5 3}.box,.bar{stroke:currentColor;stroke-width:1.5}\
g:hover>.l{stroke-width:3}\n\
.doubt{fill:url(#doubt);stroke:currentColor}\
.oper{fill:url(#oper);stroke:currentColor;stroke-width:1.5}\n\
.bg,.o,.box,.bar{fill:#fff}.ink{color:#1f2328}.dim{color:#59636e}.life{color:#818b98}\
.rule{color:#e4e8ec}\n\
.vote{color:#0550ae}.yes{color:#00694f}.no{color:#b42300}.ask{color:#8a5a00}\
.op{color:#a0107a}.fill1{fill:#ffe9a8}.fill2{fill:#ffd9f2}\n\
@media(prefers-color-scheme:dark){.bg,.o,.box,.bar{fill:#0d1117}.ink{color:#e6edf3}\
.dim{color:#9da7b1}.life{color:#6e7781}.rule{color:#212830}\n\
.vote{color:#79c0ff}.yes{color:#4cd9a8}.no{color:#ff8f73}.ask{color:#e8b23a}\
.op{color:#ff8ad8}.fill1{fill:#4a3600}.fill2{fill:#4d1040}}</style>\n\
<defs><pattern id=\"doubt\" width=\"8\" height=\"8\" patternUnits=\"userSpaceOnUse\">\
<rect class=\"fill1\" width=\"8\" height=\"8\"/>\n\
<path class=\"l ask\" d=\"M-2 2l4 -4M0 8l8 -8M6 10l4 -4\"/></pattern>\
<pattern id=\"oper\" width=\"8\" height=\"8\" patternUnits=\"userSpaceOnUse\">\n\
<rect class=\"fill2\" width=\"8\" height=\"8\"/>\
<path class=\"l op\" d=\"M0 0l8 8M0 8l8 -8\"/></pattern></defs>\n\
";

/// An entry of the legend: a sign, how it is drawn there, and what it means.
pub(crate) type Key = (Sign, &'static str, &'static str);

/// The entries that a legend may have, in their order.
pub(crate) const LEGEND: [Key; 20] = [
    (
        Sign::Forced,
        "<rect class=\"f vote\" x=\"15\" y=\"-5\" width=\"10\" height=\"10\"/>",
        "record, forced",
    ),
    (
        Sign::Unforced,
        "<rect class=\"o dim\" x=\"15\" y=\"-5\" width=\"10\" height=\"10\"/>",
        "record, not forced",
    ),
    (
        Sign::Lost,
        "<text x=\"8\" y=\"4\" class=\"lost dim\">End</text>",
        "lost in a crash",
    ),
    (
        Sign::Crash,
        "<path class=\"l no\" d=\"M0 -4l5 -3 10 6 10 -6 10 6 5 -3M0 5l5 -3 10 6 10 -6 10 6 5 \
         -3\"/>",
        "crash and restart",
    ),
    (
        Sign::Message,
        "<path class=\"l vote\" d=\"M0 0h28\"/><path class=\"f vote\" d=\"M38 0l-10 -5v10z\"/>",
        "message",
    ),
    (
        Sign::Again,
        "<path class=\"l vote again\" d=\"M0 0h28\"/>\
         <path class=\"f vote\" d=\"M38 0l-10 -5v10z\"/>",
        "delivered again",
    ),
    (
        Sign::Undelivered,
        "<path class=\"l vote\" d=\"M0 0h33m-5 -5l10 10m0 -10l-10 10\"/>",
        "never delivered",
    ),
    (
        Sign::Far,
        "<path class=\"l dim\" d=\"M0 0h10m18 0h10\"/>\
         <circle class=\"bar dim\" cx=\"14\" r=\"4\"/><circle class=\"bar dim\" cx=\"24\" r=\"4\"/>",
        "much later (see number)",
    ),
    (
        Sign::Vote,
        "<path class=\"l vote\" d=\"M0 0h40\"/>",
        "of votes",
    ),
    (
        Sign::Commit,
        "<path class=\"l yes\" d=\"M0 0h40\"/>",
        "of a commit",
    ),
    (
        Sign::Abort,
        "<path class=\"l no\" d=\"M0 0h40\"/>",
        "of an abort, or a NO",
    ),
    (
        Sign::Inquiry,
        "<path class=\"l ask\" d=\"M0 0h40\"/>",
        "of an inquiry",
    ),
    (
        Sign::Doubt,
        "<rect class=\"doubt ask\" y=\"-7\" width=\"40\" height=\"14\" rx=\"3\"/>",
        "in doubt",
    ),
    (
        Sign::Operator,
        "<rect class=\"oper op\" y=\"-7\" width=\"40\" height=\"14\" rx=\"3\"/>",
        "decided by an operator",
    ),
    (
        Sign::Warning,
        "<path class=\"f op\" fill-rule=\"evenodd\" d=\"M20 -9l10 18h-20zm-1 6h2v6h-2zm0 \
         8h2v2h-2z\"/>",
        "operator acts; mismatch",
    ),
    (
        Sign::Application,
        "<circle class=\"f dim\" cx=\"20\" r=\"5\"/>",
        "asked below the root",
    ),
    (
        Sign::Several,
        "<rect class=\"bar dim\" x=\"16\" y=\"-9\" width=\"8\" height=\"18\"/>",
        "all of one step",
    ),
    (
        Sign::Handled,
        "<circle class=\"f dim\" cx=\"20\" r=\"4\"/>",
        "handled without a record",
    ),
    (
        Sign::Trim,
        "<path class=\"l dim\" d=\"M10 -3h20M10 3h20\"/>",
        "log trimmed",
    ),
    (
        Sign::Note,
        "<circle class=\"l dim\" cx=\"20\" r=\"8\"/>",
        "point here: what is told",
    ),
];
