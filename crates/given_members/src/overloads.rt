ghost use Rattle.std.specs.Prelude.{◌≡◌, map, IfOk};
ghost use Rattle.given_members.specs.Meanings.{instance_in, method_in};

use crate::scope::Scope;
use rbs_tree::MethodType;
use sig_rules::Names;
use src_text::{Mem, Seq};
use std::alloc::Global;
use type_instances::instance;
use type_meaning::meant_method;

impl<'a, N: Names> Scope<'a, N> {
    /// What method types mean, with the arguments in place of the type parameters.
    pub fn methods(&self, alloc: Global, methods: &[MethodType]) -> Mem<Seq<MethodType>>
        ensures { IfOk result (λ ms. ms ≡ map (method_in self.now) methods.now) }
    {
        let mut done = Seq::new(alloc);
        for method in methods {
            done.push(self.method(alloc, method)?)?;
        }
        Ok(done)
    }

    // What a method type means, with the arguments in place of the type parameters.
    fn method(&self, alloc: Global, method: &MethodType) -> Mem<MethodType>
        ensures { IfOk result (λ m. m ≡ method_in self.now method.now) }
    {
        let context = self.context.as_slice();
        let own = self.own.as_slice();
        self.instance(
            alloc,
            meant_method(alloc, self.names, context, own, method)?,
        )
    }

    /// A method type with the arguments in place of the type parameters.
    pub fn instance(&self, alloc: Global, method: MethodType) -> Mem<MethodType>
        ensures { IfOk result (λ m. m ≡ instance_in self.now method) }
    {
        let by_first = instance(alloc, &self.own, &self.parameters.types, method)?;
        instance(alloc, &self.parameters.names, self.args, by_first)
    }
}
