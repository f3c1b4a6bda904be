//! The names of attributes.

ghost use Rattle.std.specs.Prelude.{◌≡◌};
ghost use Rattle.html_page.specs.Names.{attribute_name};

/// What an attribute says.
#[derive(Clone, Copy, Debug, PartialEq, Eq)]
pub enum AttributeName {
    /// `aria-hidden`: that readers of the screen pass over it.
    AriaHidden,
    /// `aria-label`: what it is called.
    AriaLabel,
    /// `aria-labelledby`: what has the name of it.
    AriaLabelledBy,
    /// `charset`: the page's encoding.
    Charset,
    /// `class`: what it is to the style sheet.
    Class,
    /// `colspan`: the columns that a cell takes.
    ColSpan,
    /// `content`: what a name or a field of the page says.
    Content,
    /// `d`: the lines of a path.
    Drawing,
    /// `href`: where a link leads.
    Href,
    /// `http-equiv`: a field of HTTP that the page says itself.
    HttpEquiv,
    /// `id`: its name.
    Id,
    /// `lang`: its language.
    Lang,
    /// `name`: what is said of the page.
    Name,
    /// `points`: the corners of a polygon.
    Points,
    /// `preserveAspectRatio`: how a drawing fits its place.
    PreserveAspectRatio,
    /// `role`: what it is to readers of the screen.
    Role,
    /// `scope`: what a head is of: a row or a column.
    Scope,
    /// `style`: how it is shown.
    Style,
    /// `tabindex`: where the keyboard goes to it.
    TabIndex,
    /// `viewBox`: the measures of a drawing.
    ViewBox,
}

impl AttributeName {
    /// Its name in HTML or SVG.
    pub fn name(self) -> &'static str
        ensures { result.now ≡ attribute_name self }
    {
        match self {
            AttributeName::AriaHidden => "aria-hidden",
            AttributeName::AriaLabel => "aria-label",
            AttributeName::AriaLabelledBy => "aria-labelledby",
            AttributeName::Charset => "charset",
            AttributeName::Class => "class",
            AttributeName::ColSpan => "colspan",
            AttributeName::Content => "content",
            AttributeName::Drawing => "d",
            AttributeName::Href => "href",
            AttributeName::HttpEquiv => "http-equiv",
            AttributeName::Id => "id",
            AttributeName::Lang => "lang",
            AttributeName::Name => "name",
            AttributeName::Points => "points",
            AttributeName::PreserveAspectRatio => "preserveAspectRatio",
            AttributeName::Role => "role",
            AttributeName::Scope => "scope",
            AttributeName::Style => "style",
            AttributeName::TabIndex => "tabindex",
            AttributeName::ViewBox => "viewBox",
        }
    }
}
