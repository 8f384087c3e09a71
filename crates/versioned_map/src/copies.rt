//! Copies of keys, values and objects, in memory of their own.

ghost use Rattle.std.specs.Prelude.{◌≡◌, IfOk};

use entry::{Key, Object, Value};
use std::alloc::{AllocError, Global};

pub fn copy_key(alloc: Global, key: &Key) -> Result<Key, AllocError>
    ensures { IfOk result (λ copy. copy ≡ key.now) }
{
    key.view().to_key(alloc)
}

pub fn copy_value(alloc: Global, value: &Value) -> Result<Value, AllocError>
    ensures { IfOk result (λ copy. copy ≡ value.now) }
{
    Value::from_slice(alloc, value.as_slice())
}

pub fn copy_object(alloc: Global, object: &Object) -> Result<Object, AllocError>
    ensures { IfOk result (λ copy. copy ≡ object.now) }
{
    Ok(Object {
        key: copy_key(alloc, &object.key)?,
        version: object.version,
        value: copy_value(alloc, &object.value)?,
    })
}
