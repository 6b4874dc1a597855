//! Types seen with the arguments of a class in the places of its parameters, without forming them.

ghost use Rattle.std.specs.Prelude.{◌≡◌, ◌<◌, ◌≤◌, ◌+◌, [], ◌∷◌, length, slice_get, slice_index_or};
ghost use Rattle.std.specs.Option.{option_copied, option_map};
ghost use Rattle.dart_types.specs.Scopes.{argument_in, outer_of, close, close_all};
ghost use Rattle.dart_types.specs.Substitution.{argument_of};
ghost use Rattle.dart_types.specs.Forms.{seen_type, seen_types, form_of, params_of};
ghost use Rattle.dart_types.specs.Ty.{types_of, invalid};

use crate::ids::{ClassId, VarId};
use crate::types::{DartType, FunctionType, TypeNode};
use std::marker::Model;

/// The form of a scope.
#[cycle(scopes)]
#[derive(Drop)]
pub(crate) enum ScopeNode<'a> {
    /// Every variable stands for itself.
    Root,
    /// The parameters of a class stand for its arguments, which have a scope of their own.
    Frame {
        params: &'a [VarId],
        args: &'a [DartType],
        outer: &'a Scope<'a>,
    },
}

/// What the variables of a type stand for. Contracts see it as the list of its frames.
#[cycle(scopes)]
#[derive(Drop)]
pub(crate) struct Scope<'a> {
    node: ScopeNode<'a>,
}

impl<'a> Model for Scope<'a> {
    ghost use Rattle.std.specs.Prelude.{length};
    ghost use Rattle.dart_types.specs.Scopes.{Frames, frames_code};

    ghost Value = { Frames };

    ghost coded = { frames_code };

    ghost use Rattle.dart_types.specs.ScopeView.{frames_of};

    ghost view = { λ a. frames_of a.node };

    ghost size = { length };

    ghost use Rattle.std.proofs.Common.{arith};

    ghost size_decreases = { λ a h. Prim.grind (arith) };
}

/// A type in a scope.
#[derive(Clone, Copy)]
pub(crate) struct Seen<'a> {
    pub(crate) ty: &'a DartType,
    pub(crate) scope: &'a Scope<'a>,
}

/// A list of types in a scope.
#[derive(Clone, Copy)]
pub(crate) struct SeenList<'a> {
    pub(crate) types: &'a [DartType],
    pub(crate) scope: &'a Scope<'a>,
}

/// A function type in a scope.
#[derive(Clone, Copy)]
pub(crate) struct SeenFunction<'a> {
    pub(crate) function: &'a FunctionType,
    pub(crate) scope: &'a Scope<'a>,
}

/// The form of a type in a scope: no variable in it stands for anything but itself.
#[derive(Clone, Copy)]
pub(crate) enum Form<'a> {
    Invalid,
    Never,
    Void,
    Null,
    Interface { class: ClassId, args: SeenList<'a> },
    Function(SeenFunction<'a>),
    Var(VarId),
    Promoted { var: VarId, to: Seen<'a> },
    Nullable(Seen<'a>),
}

impl<'a> Scope<'a> {
    /// The scope in which every variable stands for itself.
    pub(crate) fn root() -> Scope<'a>
        ensures { result ≡ [] }
    {
        Scope {
            node: ScopeNode::Root,
        }
    }

    /// The scope of a class's own types, where the class has these arguments.
    pub(crate) fn frame(
        params: &'a [VarId],
        args: &'a [DartType],
        outer: &'a Scope<'a>,
    ) -> Scope<'a>
        ensures { result ≡ (params.now, args.now) ∷ outer.now }
    {
        Scope {
            node: ScopeNode::Frame {
                params,
                args,
                outer,
            },
        }
    }

    // The scope of the arguments.
    fn outer(&self) -> &Scope<'a>
        ensures { result.now ≡ outer_of self.now }
    {
        match &self.node {
            ScopeNode::Root => self,
            ScopeNode::Frame { outer, .. } => outer,
        }
    }

    // The argument that a variable stands for, if it is a parameter.
    fn argument(&self, var: VarId) -> Option<&DartType>
        ensures { option_copied result ≡ argument_in self.now var }
    {
        match &self.node {
            ScopeNode::Root => None,
            ScopeNode::Frame { params, args, .. } => argument_for(params, args, var),
        }
    }
}

// The argument at the place of a parameter.
fn argument_for<'a>(params: &[VarId], args: &'a [DartType], var: VarId) -> Option<&'a DartType>
    ensures { option_copied result ≡ argument_of params.now (types_of args.now) var }
{
    for i in 0..params.len() {
        if i >= args.len() {
            return None;
        }
        if params[i] == var {
            return Some(&args[i]);
        }
    }
    None
}

impl<'a> Seen<'a> {
    /// The form of the type.
    pub(crate) fn form(&self) -> Form<'a>
        ensures { form_of result ≡ seen_type self.now }
    {
        let mut seen = *self;
        loop {
            let ty = seen.ty;
            let scope = seen.scope;
            match &ty.node {
                TypeNode::Invalid => return Form::Invalid,
                TypeNode::Never => return Form::Never,
                TypeNode::Void => return Form::Void,
                TypeNode::Null => return Form::Null,
                TypeNode::Interface { class, args } => {
                    return Form::Interface {
                        class: *class,
                        args: SeenList {
                            types: args.as_slice(),
                            scope,
                        },
                    };
                }
                TypeNode::Function(function) => {
                    return Form::Function(SeenFunction { function, scope });
                }
                TypeNode::Var(var) => match scope.argument(*var) {
                    None => return Form::Var(*var),
                    Some(argument) => {
                        seen = Seen {
                            ty: argument,
                            scope: scope.outer(),
                        };
                    }
                },
                TypeNode::Promoted { var, to } => {
                    return Form::Promoted {
                        var: *var,
                        to: Seen { ty: to, scope },
                    };
                }
                TypeNode::Nullable(bare) => return Form::Nullable(Seen { ty: bare, scope }),
            }
        }
    }
}

impl<'a> SeenList<'a> {
    /// The type at a place.
    pub(crate) fn at(&self, i: usize) -> Seen<'a>
        requires { i < length self.now.types.now }
        ensures { seen_type result ≡ close self.now.scope.now (slice_index_or self.now.types.now i invalid) }
    {
        Seen {
            ty: &self.types[i],
            scope: self.scope,
        }
    }
}

impl<'a> SeenFunction<'a> {
    /// The types of the positional parameters that a call has to give.
    pub(crate) fn required(&self) -> SeenList<'a>
        ensures { seen_types result ≡ close_all self.now.scope.now (types_of self.now.function.now.required) }
    {
        SeenList {
            types: self.function.required.as_slice(),
            scope: self.scope,
        }
    }

    /// The types of the positional parameters that a call may leave out.
    pub(crate) fn optional(&self) -> SeenList<'a>
        ensures { seen_types result ≡ close_all self.now.scope.now (types_of self.now.function.now.optional) }
    {
        SeenList {
            types: self.function.optional.as_slice(),
            scope: self.scope,
        }
    }

    /// The type of the result.
    pub(crate) fn result(&self) -> Seen<'a>
        ensures { seen_type result ≡ close self.now.scope.now self.now.function.now.result }
    {
        Seen {
            ty: &self.function.result,
            scope: self.scope,
        }
    }

    /// The type of the positional parameter at a place, the required ones first; None where there
    /// is none.
    pub(crate) fn param(&self, i: usize) -> Option<Seen<'a>>
        ensures { option_map seen_type result ≡ option_map (close self.now.scope.now) (slice_get (params_of self.now.function.now) i) }
    {
        let required = self.function.required.as_slice();
        if i < required.len() {
            return Some(Seen {
                ty: &required[i],
                scope: self.scope,
            });
        }
        let optional = self.function.optional.as_slice();
        let at = i - required.len();
        if at >= optional.len() {
            return None;
        }
        Some(Seen {
            ty: &optional[at],
            scope: self.scope,
        })
    }

    /// The type of the positional parameter so many places behind `taken` ones, among which are all
    /// that are required; None where there is none.
    pub(crate) fn param_after(&self, taken: usize, i: usize) -> Option<Seen<'a>>
        requires { length self.now.function.now.required ≤ taken }
        ensures { option_map seen_type result ≡ option_map (close self.now.scope.now) (slice_get (params_of self.now.function.now) (taken + i)) }
    {
        let optional = self.function.optional.as_slice();
        let from = taken - self.function.required.as_slice().len();
        if from >= optional.len() {
            return None;
        }
        if i >= optional.len() - from {
            return None;
        }
        Some(Seen {
            ty: &optional[from + i],
            scope: self.scope,
        })
    }
}
