//! The parameters of a query.

ghost use Rattle.std.specs.Prelude.{◌≡◌, ◌≢◌, ◌↔◌, Some, Err, true, option_copied};
ghost use Rattle.std.specs.List.{slice_split};
ghost use Rattle.lw_route.specs.inner.Texts.{is_text, gives_text};
ghost use Rattle.lw_route.specs.Parameters.{takes, name_text, IsGiven, IsPart, AreParts, AreParameters, is_ampersand, no_parameters};
ghost use Rattle.lw_route.specs.declared.parameters.Name.TheVariants as Names;
ghost use Rattle.lw_route.specs.declared.fault.Fault.TheVariants as Faults;
ghost use Rattle.lw_route.specs.inner.Faults.{IsAnswered};

use crate::decoding::short;
use crate::fault::Fault;
use crate::{RouteError, decoding, numbers};
use lw_reg::Path;
use lw_stamp::Text;
use std::alloc::Global;

/// Which parameters a query takes.
#[derive(Clone, Copy)]
pub(crate) enum Form {
    /// None.
    Nothing,
    /// Those of a page of registrations.
    Registrations,
    /// Those of a page of observations.
    Observations,
    /// Those of a page of changes.
    Changes,
    /// Those of a page of notifications.
    Notifications,
    /// Those of an observation that is to begin.
    Observing,
}

/// The name of a parameter.
#[derive(Clone, Copy)]
pub(crate) enum Name {
    After,
    Limit,
    Since,
    Start,
    From,
    Path,
    Accept,
}

/// The parameters that were given so far.
#[derive(Drop)]
pub(crate) struct Parameters {
    pub after: Option<Text>,
    pub limit: Option<usize>,
    pub since: Option<u64>,
    pub start: Option<u64>,
    pub from: Option<u64>,
    pub path: Option<Path>,
    pub accept: Option<u16>,
}

impl Name {
    ghost use Rattle.lw_route.specs.declared.parameters.Name.{Name as TheName};

    /// The parameter of the name that the form takes.
    fn read(form: Form, text: &str) -> Option<Name>
        ensures { (name : TheName)
            → (result ≡ Some name) ↔ ((takes form name ≡ true) × (text.now ≡ name_text name)) }
    {
        match (form, text) {
            (Form::Registrations, "after") => Some(Name::After),
            (Form::Registrations, "limit") => Some(Name::Limit),
            (Form::Observations, "after") => Some(Name::After),
            (Form::Observations, "limit") => Some(Name::Limit),
            (Form::Changes, "since") => Some(Name::Since),
            (Form::Changes, "start") => Some(Name::Start),
            (Form::Changes, "limit") => Some(Name::Limit),
            (Form::Notifications, "from") => Some(Name::From),
            (Form::Notifications, "start") => Some(Name::Start),
            (Form::Notifications, "limit") => Some(Name::Limit),
            (Form::Observing, "path") => Some(Name::Path),
            (Form::Observing, "accept") => Some(Name::Accept),
            _ => None,
        }
    }
}

impl Parameters {
    /// The parameters of the query, from left to right.
    pub(crate) fn read(alloc: Global, form: Form, query: Option<&str>) -> Result<Parameters, Fault>
        ensures given { IsAnswered (AreParameters form (option_copied query.entry)) result }
        ensures memory { result ≡ Err Faults.NoMemory → gives_text form ≡ true }
    {
        match query {
            None | Some("") => Ok(Parameters::none()),
            Some(parts) => Parameters::read_parts(alloc, form, parts),
        }
    }

    fn none() -> Parameters
        ensures { result ≡ no_parameters }
    {
        Parameters {
            after: None,
            limit: None,
            since: None,
            start: None,
            from: None,
            path: None,
            accept: None,
        }
    }

    fn read_parts(alloc: Global, form: Form, parts: &str) -> Result<Parameters, Fault>
        ensures given { IsAnswered (AreParts form no_parameters (slice_split is_ampersand parts.now)) result }
        ensures memory { result ≡ Err Faults.NoMemory → gives_text form ≡ true }
    {
        let mut parameters = Parameters::none();
        for part in parts.split('&') {
            parameters = parameters.with(alloc, form, part)?;
        }
        Ok(parameters)
    }

    /// The parameters with one part more.
    fn with(self, alloc: Global, form: Form, part: &str) -> Result<Parameters, Fault>
        ensures given { IsAnswered (IsPart form self part.now) result }
        ensures memory { result ≡ Err Faults.NoMemory → gives_text form ≡ true }
    {
        let Some((name, value)) = part.split_once('=') else {
            return Err(Fault::Route(RouteError::NoValue));
        };
        match Name::read(form, name) {
            Some(name) => self.with_value(alloc, name, value),
            None => Err(Fault::Route(RouteError::NoParameter)),
        }
    }

    fn with_value(self, alloc: Global, name: Name, value: &str) -> Result<Parameters, Fault>
        ensures given { IsAnswered (IsGiven name self value.now) result }
        ensures memory { result ≡ Err Faults.NoMemory → is_text name ≡ true }
    {
        match name {
            Name::After => self.with_after(alloc, value),
            Name::Limit => self.with_limit(value),
            Name::Since => self.with_since(value),
            Name::Start => self.with_start(value),
            Name::From => self.with_from(value),
            Name::Path => self.with_path(alloc, value),
            Name::Accept => self.with_accept(value),
        }
    }

    fn with_after(self, alloc: Global, value: &str) -> Result<Parameters, Fault>
        ensures { IsAnswered (IsGiven Names.After self value.now) result }
    {
        if self.after.is_some() {
            return Err(Fault::Route(RouteError::Twice));
        }
        let after = Some(short(alloc, value, RouteError::After)?);
        Ok(Parameters { after, ..self })
    }

    fn with_limit(self, value: &str) -> Result<Parameters, Fault>
        ensures given { IsAnswered (IsGiven Names.Limit self value.now) result }
        ensures memory { result ≢ Err Faults.NoMemory }
    {
        if self.limit.is_some() {
            return Err(Fault::Route(RouteError::Twice));
        }
        let limit = Some(numbers::limit(value)?);
        Ok(Parameters { limit, ..self })
    }

    fn with_since(self, value: &str) -> Result<Parameters, Fault>
        ensures given { IsAnswered (IsGiven Names.Since self value.now) result }
        ensures memory { result ≢ Err Faults.NoMemory }
    {
        if self.since.is_some() {
            return Err(Fault::Route(RouteError::Twice));
        }
        let since = Some(numbers::since(value)?);
        Ok(Parameters { since, ..self })
    }

    fn with_start(self, value: &str) -> Result<Parameters, Fault>
        ensures given { IsAnswered (IsGiven Names.Start self value.now) result }
        ensures memory { result ≢ Err Faults.NoMemory }
    {
        if self.start.is_some() {
            return Err(Fault::Route(RouteError::Twice));
        }
        let start = Some(numbers::tag(value)?);
        Ok(Parameters { start, ..self })
    }

    fn with_from(self, value: &str) -> Result<Parameters, Fault>
        ensures given { IsAnswered (IsGiven Names.From self value.now) result }
        ensures memory { result ≢ Err Faults.NoMemory }
    {
        if self.from.is_some() {
            return Err(Fault::Route(RouteError::Twice));
        }
        let from = Some(numbers::from(value)?);
        Ok(Parameters { from, ..self })
    }

    fn with_path(self, alloc: Global, value: &str) -> Result<Parameters, Fault>
        ensures { IsAnswered (IsGiven Names.Path self value.now) result }
    {
        if self.path.is_some() {
            return Err(Fault::Route(RouteError::Twice));
        }
        let path = Some(decoding::path(alloc, value)?);
        Ok(Parameters { path, ..self })
    }

    fn with_accept(self, value: &str) -> Result<Parameters, Fault>
        ensures given { IsAnswered (IsGiven Names.Accept self value.now) result }
        ensures memory { result ≢ Err Faults.NoMemory }
    {
        if self.accept.is_some() {
            return Err(Fault::Route(RouteError::Twice));
        }
        let accept = Some(numbers::accept(value)?);
        Ok(Parameters { accept, ..self })
    }
}
